use protocol::Refusal;
use std::test::Fail;

// The contract says what is shown, and not that showing it never fails.
#[test]
fn each_refusal_is_shown(rt: HostRuntime) -> Result<(), Fail> {
    let rows = [
        (Refusal::PlanOutOfRange, "The plan is outside its ranges."),
        (
            Refusal::MemoryTooSmall,
            "The memory is smaller than what is needed.",
        ),
        (
            Refusal::MessageWaiting,
            "A message already waits in the carrier.",
        ),
        (
            Refusal::ProcessOutOfRange,
            "There is no process of that number.",
        ),
        (
            Refusal::MarkRefused,
            "The process is marked already, or no more may be marked.",
        ),
        (
            Refusal::WrongRole,
            "A correct process may not do this, or only a correct one may.",
        ),
        (
            Refusal::SubjectOutOfPlan,
            "The subject is outside the plan.",
        ),
        (Refusal::NothingWaiting, "Nothing waits for the process."),
        (Refusal::ValueOutOfRange, "A value is out of its range."),
        (
            Refusal::SerialsUsedUp,
            "All serials of the process are used.",
        ),
        (
            Refusal::CaseAlreadyOpened,
            "The process opened the case before.",
        ),
        (
            Refusal::MayNotAdvance,
            "The process may not advance in the case.",
        ),
        (Refusal::NoRoom, "The carrier has too little room."),
        (
            Refusal::SlipRefused,
            "No release slip may be issued or given back here.",
        ),
        (Refusal::NotRead, "The line of the script cannot be read."),
        (
            Refusal::LineOutOfPlace,
            "A turn comes before a line is opened, or a second line is.",
        ),
    ];
    for (refusal, sentence) in rows {
        let shown = format!(in rt.alloc(); "{refusal}")?;
        assert!(rt; shown.as_str() == sentence);
    }
    Ok(())
}
