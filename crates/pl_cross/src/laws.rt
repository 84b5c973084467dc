//! What the arrays of a session stand for. The functions do nothing: the contract of each is a law.
ghost use Rattle.pl_cross.specs.Section.{AllowedParametersAreRight};
ghost use Rattle.pl_cross.specs.Arrays.{SectionsAreValues, NodesAreSections, LabelsHaveCodes};

/// The cross-section over arrays that hold a term's input, mask and group on a session is the term's value.
pub fn sections_are_values()
    ensures terms { SectionsAreValues }
    ensures nodes { NodesAreSections }
{}

/// Codes may stand for the values of a label classifier where all label texts have codes.
pub fn labels_have_codes()
    ensures { LabelsHaveCodes }
{}

/// The kinds in a checked pipeline have the parameters that `cross_into` and `select_into` ask for.
pub fn allowed_parameters_are_right()
    ensures { AllowedParametersAreRight }
{}
