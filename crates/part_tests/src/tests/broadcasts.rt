use crate::tests::assert_same;
use broadcast::{Reaction, receive};
use memory::{BroadcastRecord, Memory};
use plan::Plan;
use protocol::{Message, Step, Subject};
use std::test::Fail;

const ITEM: Subject = Subject::Item {
    originator: 0,
    serial: 0,
};

const NOTHING: Reaction = Reaction::NOTHING;

const ECHOES: Reaction = Reaction {
    echo: true,
    ..Reaction::NOTHING
};

const IS_READY: Reaction = Reaction {
    ready: true,
    ..Reaction::NOTHING
};

const ECHOES_AND_IS_READY: Reaction = Reaction {
    echo: true,
    ..IS_READY
};

const ACCEPTS: Reaction = Reaction {
    accepted: true,
    ..Reaction::NOTHING
};

#[test]
fn one_process_goes_through_all_stages(rt: HostRuntime) -> Result<(), Fail> {
    let plan = Plan::new(1, 0, 1, 0, 1)?;
    let mut memory = Memory {
        broadcasts: &mut [BroadcastRecord::SILENT; 1],
        bodies: &mut [None; 2],
        cases: &mut [],
        serials: &mut [0; 1],
    };
    let rows = [
        (Step::Initial, ECHOES),
        (Step::Echo, IS_READY),
        (Step::Ready, ACCEPTS),
        (Step::Ready, NOTHING),
    ];
    for (step, expected) in rows {
        let message = Message::new(0, 0, step, ITEM, 7)?;
        assert_same(&rt, receive(&plan, &mut memory, 0, &message), expected);
    }
    Ok(())
}

#[test]
fn the_first_word_of_each_sender_counts(rt: HostRuntime) -> Result<(), Fail> {
    let plan = Plan::new(4, 1, 1, 0, 1)?;
    let mut memory = Memory {
        broadcasts: &mut [BroadcastRecord::SILENT; 16],
        bodies: &mut [None; 128],
        cases: &mut [],
        serials: &mut [0; 4],
    };
    let rows = [
        (1, Step::Initial, 7, NOTHING),
        (0, Step::Initial, 7, ECHOES),
        (0, Step::Initial, 7, NOTHING),
        (0, Step::Echo, 7, NOTHING),
        (1, Step::Echo, 7, NOTHING),
        (1, Step::Echo, 7, NOTHING),
        (3, Step::Echo, 8, NOTHING),
        (3, Step::Echo, 7, NOTHING),
        (2, Step::Echo, 7, IS_READY),
        (0, Step::Ready, 7, NOTHING),
        (1, Step::Ready, 7, NOTHING),
        (1, Step::Ready, 7, NOTHING),
        (4, Step::Ready, 7, NOTHING),
        (2, Step::Ready, 7, ACCEPTS),
        (3, Step::Ready, 7, NOTHING),
        (0, Step::Initial, 7, NOTHING),
    ];
    for (sender, step, body, expected) in rows {
        let message = Message::new(sender, 3, step, ITEM, body)?;
        assert_same(&rt, receive(&plan, &mut memory, 3, &message), expected);
    }
    Ok(())
}

#[test]
fn readies_carry_a_silent_process(rt: HostRuntime) -> Result<(), Fail> {
    let plan = Plan::new(4, 1, 1, 0, 1)?;
    let mut memory = Memory {
        broadcasts: &mut [BroadcastRecord::SILENT; 16],
        bodies: &mut [None; 128],
        cases: &mut [],
        serials: &mut [0; 4],
    };
    let rows = [
        (0, 1, NOTHING),
        (4, 1, NOTHING),
        (0, 2, ECHOES_AND_IS_READY),
        (1, 2, NOTHING),
        (0, 3, ACCEPTS),
    ];
    for (process, sender, expected) in rows {
        let message = Message::new(sender, 0, Step::Ready, ITEM, 7)?;
        assert_same(
            &rt,
            receive(&plan, &mut memory, process, &message),
            expected,
        );
    }
    Ok(())
}

#[test]
fn too_small_a_memory_hears_nothing(rt: HostRuntime) -> Result<(), Fail> {
    let plan = Plan::new(1, 0, 1, 0, 1)?;
    let mut memory = Memory {
        broadcasts: &mut [BroadcastRecord::SILENT; 1],
        bodies: &mut [None; 1],
        cases: &mut [],
        serials: &mut [0; 1],
    };
    let message = Message::new(0, 0, Step::Initial, ITEM, 7)?;
    assert_same(&rt, receive(&plan, &mut memory, 0, &message), NOTHING);
    Ok(())
}
