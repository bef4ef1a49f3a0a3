// Laws, each the contract of a function that does nothing.
ghost use Rattle.qrels_round_trip.specs.RoundTrip.{TextSaysJudgements, LimitsAloneRefuse, JudgementsAreKept, RunsAreKept};

/// Where its rows and the bytes of their document names are within the limits of a judgements file, the text of the
/// judgements in force, read as such a file, says exactly its rows: the grade in force of each judged document, and -1
/// of each listed document that is unjudged.
pub fn text_says_judgements()
    ensures { TextSaysJudgements }
{}

/// Where the text is refused, one of these two limits is passed and is the fault that is told.
pub fn limits_alone_refuse()
    ensures { LimitsAloneRefuse }
{}

/// Where the text is read, it has the topics of the judgements file that the desk was made of. The desk of it and of
/// the same runs has the same topics, the same universe of each and the same rankings, and its judgements are the grades
/// in force.
pub fn judgements_are_kept()
    ensures { JudgementsAreKept }
{}

/// The bytes of a run say the same run beside two judgements files with the same topics, unless there are then too many
/// bytes of document names.
pub fn runs_are_kept()
    ensures { RunsAreKept }
{}
