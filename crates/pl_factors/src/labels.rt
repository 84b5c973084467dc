//! The tests of a label's text.
ghost use Rattle.std.specs.Prelude.{◌≡◌, bytes_eq};
ghost use Rattle.std.specs.List.{list_any};
ghost use Rattle.pl_pipeline.specs.Pointwise.{has_substring};
ghost use Rattle.pl_terms.specs.Kinds.{kind_of};
ghost use Rattle.pl_factors.specs.Filters.{IsLabelTest, HasText, passes};

use pl_terms::{LabelValue, TermKind, Text};

/// Whether a label's text passes the test: it is the kind's text, is another, begins or ends with it, has it
/// somewhere, or is one of the kind's list, byte by byte, as Zipline's classifiers test theirs. It asks for
/// one of these kinds; a comparison with a number is none. It takes no memory.
#[tactic(auto, unfolding(pl_pipeline::specs::Pointwise::label_test, pl_terms::specs::Kinds::kind_of))]
pub fn label_test(kind: &TermKind, text: &[u8]) -> bool
    requires { IsLabelTest (kind_of kind.now) }
    ensures { result ≡ passes (kind_of kind.now) text.now }
{
    match kind {
        TermKind::LabelIs { label } => text == text_of(label),
        TermKind::LabelIsNot { label } => text != text_of(label),
        TermKind::StartsWith { text: start } => text.starts_with(start.bytes()),
        TermKind::EndsWith { text: end } => text.ends_with(end.bytes()),
        TermKind::HasSubstring { text: part } => has_substring(text, part.bytes()),
        TermKind::ElementOf { texts } => is_among(text, texts.as_slice()),
        _ => unreachable!(),
    }
}

// The text that a label is compared with.
fn text_of(label: &LabelValue) -> &[u8]
    requires { HasText label.now }
    ensures { label.now ≡ LabelValue.Text result.now }
{
    match label {
        LabelValue::Text(text) => text.bytes(),
        LabelValue::Number(_) => unreachable!(),
    }
}

// Whether the text stands somewhere in the label.
#[tactic(auto, unfolding(pl_pipeline::specs::Pointwise::has_substring))]
fn has_substring(label: &[u8], text: &[u8]) -> bool
    ensures { result ≡ has_substring text.now label.now }
{
    let mut at = 0;
    while at <= label.len() {
        if label[at..].starts_with(text) {
            return true;
        }
        at += 1;
    }
    false
}

// Whether the text is one of the list.
fn is_among(text: &[u8], texts: &[Text]) -> bool
    ensures { result ≡ list_any (bytes_eq text.now) texts.now }
{
    texts.iter().any(|other| text == other.bytes())
}
