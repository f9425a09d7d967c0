use rehearse::rehearse;
use std::test::Fail;
use text::Text;

#[test]
fn an_empty_script_gets_no_answer(rt: HostRuntime) -> Result<(), Fail> {
    let text = rehearse(rt.alloc(), b"")?;
    assert!(rt; text.as_bytes() == b"".as_slice());
    Ok(())
}

#[test]
fn a_script_has_a_limit(rt: HostRuntime) -> Result<(), Fail> {
    let longer = vec![in rt.alloc(); b'\n'; 4097]?;
    let text = rehearse(rt.alloc(), longer.as_slice())?;
    assert!(rt; text.as_bytes() == b"(refused 2)\n".as_slice());
    Ok(())
}

// The first example of docs/SCRIPT.md, and the two deliveries after it.
#[test]
fn one_process_hears_itself(rt: HostRuntime) -> Result<(), Fail> {
    let script = b"(line (counters 1) (tolerate 0) (strange))
(announce (counter 0) (tag 5))
(deliver (counter 0) (pick 0))
(deliver (counter 0) (pick 0))
(deliver (counter 0) (pick 0))
";
    let answers = b"(opened)
(announced (serial 0) (sent 1))
(took (sent 1) (entered 0))
(took (sent 1) (entered 0))
(took (sent 0) (entered 1))
";
    let text = rehearse(rt.alloc(), script)?;
    assert!(rt; text.as_bytes() == answers.as_slice());
    Ok(())
}

// One process decides alone: three deliveries for each of nine rounds.
#[test]
fn a_case_ends_after_nine_rounds(rt: HostRuntime) -> Result<(), Fail> {
    let mut script = Text::new(rt.alloc()).put(b"(line (counters 1) (tolerate 0) (strange))\n")?;
    script = script.put(b"(open (counter 0) (case 0) (vote 1))\n")?;
    let mut answers = Text::new(rt.alloc()).put(b"(opened)\n(sent 1)\n")?;
    for round in 2..11 {
        for entered in 0..3 {
            script = script.put(b"(deliver (counter 0) (pick 0))\n")?;
            answers = answers.put(took(entered == 2))?;
        }
        script = script.put(b"(advance (counter 0) (case 0))\n")?;
        answers = answers.put(b"(advanced (round ")?.put_number(round)?;
        answers = answers.put(if round < 10 {
            b") (sent 1))\n"
        } else {
            b") (sent 0))\n"
        })?;
    }
    let text = rehearse(rt.alloc(), script.as_bytes())?;
    assert!(rt; text.as_bytes() == answers.as_bytes());
    Ok(())
}

fn took(entered: bool) -> &'static [u8] {
    if entered {
        b"(took (sent 0) (entered 1))\n"
    } else {
        b"(took (sent 1) (entered 0))\n"
    }
}
