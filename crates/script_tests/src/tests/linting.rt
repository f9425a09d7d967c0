use form::Form;
use protocol::Refusal;
use script::{ScriptFault, ScriptLine, check_line, lint};
use std::test::Fail;

#[test]
fn an_empty_script_gets_no_answer(rt: HostRuntime) -> Result<(), Fail> {
    let text = lint(rt.alloc(), b"")?;
    assert!(rt; text.as_bytes() == b"".as_slice());
    Ok(())
}

#[test]
fn a_last_line_may_have_its_line_break(rt: HostRuntime) -> Result<(), Fail> {
    let with = lint(rt.alloc(), b"(advance (counter 0) (case 0))\n")?;
    let without = lint(rt.alloc(), b"(advance (counter 0) (case 0))")?;
    assert!(rt; with.as_bytes() == b"(advance (counter 0) (case 0))\n".as_slice());
    assert!(rt; without.as_bytes() == b"(advance (counter 0) (case 0))\n".as_slice());
    Ok(())
}

#[test]
fn an_empty_line_is_a_line(rt: HostRuntime) -> Result<(), Fail> {
    let text = lint(rt.alloc(), b"\n\n")?;
    let faults =
        b"(fault (layer form) (line 1) (byte 1))\n(fault (layer form) (line 2) (byte 1))\n";
    assert!(rt; text.as_bytes() == faults.as_slice());
    Ok(())
}

#[test]
fn a_script_has_a_limit(rt: HostRuntime) -> Result<(), Fail> {
    let longest = vec![in rt.alloc(); b'x'; 4096]?;
    let text = lint(rt.alloc(), longest.as_slice())?;
    assert!(rt; text.as_bytes() == b"(fault (layer form) (line 1) (byte 1))\n".as_slice());
    let longer = vec![in rt.alloc(); b'x'; 4097]?;
    let text = lint(rt.alloc(), longer.as_slice())?;
    assert!(rt; text.as_bytes() == b"(refused 2)\n".as_slice());
    Ok(())
}

fn form_of(text: &[u8]) -> Result<Form, Refusal> {
    Ok(check_line(ScriptLine { number: 1, text })?)
}

#[test]
fn a_fault_is_a_refusal(rt: HostRuntime) -> Result<(), Fail> {
    assert!(rt; form_of(b"(lone)") == Err(Refusal::NotRead));
    let other = ScriptFault::Refused(Refusal::NoRoom);
    assert!(rt; Refusal::from(other) == Refusal::NoRoom);
    Ok(())
}

#[test]
fn each_of_the_most_lines_is_answered(rt: HostRuntime) -> Result<(), Fail> {
    let most = vec![in rt.alloc(); b'\n'; 4096]?;
    let text = lint(rt.alloc(), most.as_slice())?;
    // 38 bytes a line, and the digits of its number.
    assert_eq!(rt; text.as_bytes().len(), 4096 * 38 + 15277);
    Ok(())
}
