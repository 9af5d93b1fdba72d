//! Laws that hold of every message.
ghost use Rattle.api.specs.Plain.{AnswersArePlain};
ghost use Rattle.api.specs.Run.{StaysClear};
ghost use Rattle.api.specs.Step.{StepIsDeterministic, StorageReportsFailure};

/// States that a message has one answer and leads to one state, unless the device or an allocation
/// fails.
pub fn message_step_is_deterministic()
    ensures { StepIsDeterministic }
{}

/// States that a `Storage` answer implies a device failure while its message was executed.
pub fn storage_reports_failure()
    ensures step { StorageReportsFailure }
    ensures run { StaysClear }
{}

/// States that the URI in the answer to a query needs no JSON escape.
pub fn uris_need_no_escape()
    ensures { AnswersArePlain }
{}
