use crate::tests::assert_same;
use plan::{Draft, Line, Needs, Plan, Thresholds};
use protocol::Refusal;
use std::test::Fail;

#[test]
fn plans_have_ranges(rt: HostRuntime) {
    let rows = [
        ([1, 0, 0, 0, 1], true),
        ([16, 5, 32, 8, 16], true),
        ([0, 0, 0, 0, 1], false),
        ([17, 0, 0, 0, 1], false),
        ([3, 1, 0, 0, 1], false),
        ([4, 1, 0, 0, 1], true),
        ([16, 6, 0, 0, 1], false),
        ([16, u64::MAX, 0, 0, 1], false),
        ([1, 0, 33, 0, 1], false),
        ([1, 0, 0, 9, 1], false),
        ([1, 0, 0, 0, 0], false),
        ([1, 0, 0, 0, 17], false),
    ];
    for ([n, t, serials, cases, phases], whole) in rows {
        assert_same(&rt, Plan::new(n, t, serials, cases, phases).is_ok(), whole);
    }
}

#[test]
fn the_largest_plan_needs_this_much(rt: HostRuntime) -> Result<(), Fail> {
    let needs = Needs {
        broadcast_records: 106_496,
        body_places: 3_407_872,
        case_records: 128,
        next_serials: 16,
    };
    assert_same(&rt, Plan::new(16, 5, 32, 8, 16)?.needs(), needs);
    Ok(())
}

#[test]
fn the_sheet_is_read_by_n_and_t(rt: HostRuntime) -> Result<(), Fail> {
    let rows = [
        (1, 0, 1, 1, 1),
        (4, 1, 3, 2, 3),
        (5, 1, 4, 2, 3),
        (16, 5, 11, 6, 11),
    ];
    for (n, t, echo, ready, accept) in rows {
        let thresholds = Thresholds {
            echo,
            ready,
            accept,
        };
        assert_same(&rt, Plan::new(n, t, 0, 0, 1)?.thresholds(), thresholds);
    }
    Ok(())
}

#[test]
fn t_processes_can_be_marked(rt: HostRuntime) -> Result<(), Fail> {
    let mut draft = Draft::new(Plan::new(7, 2, 0, 0, 1)?);
    assert_same(&rt, draft.mark_faulty(7), Err(Refusal::ProcessOutOfRange));
    assert_same(&rt, draft.mark_faulty(6), Ok(()));
    assert_same(&rt, draft.mark_faulty(6), Err(Refusal::MarkRefused));
    assert_same(&rt, draft.mark_faulty(0), Ok(()));
    assert_same(&rt, draft.mark_faulty(1), Err(Refusal::MarkRefused));
    let line = Line::from(draft);
    assert!(rt; line.is_faulty(6) && line.is_faulty(0));
    assert!(rt; !line.is_faulty(1) && !line.is_faulty(7) && !line.is_faulty(u64::MAX));
    Ok(())
}
