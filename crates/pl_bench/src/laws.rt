//! What is proved of the pipeline that is run.
ghost use Rattle.pl_bench.specs.Pipeline.{TextMeansThePipeline};

/// The text spells one script, which keeps the rules and means the pipeline of five terms.
pub fn text_means_the_pipeline()
    ensures { TextMeansThePipeline }
{}
