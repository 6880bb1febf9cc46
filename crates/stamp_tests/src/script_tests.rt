use stamp_history::read_script;
use stamp_machines::{Arg, ScriptCall};
use std::test::Fail;

#[test]
fn threads_and_steps_keep_their_order(rt: HostRuntime) -> Result<(), Fail> {
    let text = r#"{"readers":1,"steps":[1,0,2,1],
"threads":[[["try_write"],["unlock",[1,0]]],[["try_read"],["validate",7]],[]],"versions":1,"width":1}"#;
    let script = read_script(rt.alloc(), text.as_bytes())?;
    assert!(rt; script.steps() == [1, 0, 2, 1].as_slice());
    let [first, second, third] = script.threads() else {
        return Err(Fail::from("three threads"));
    };
    assert!(rt;
        matches!(
            first.as_slice(),
            [ScriptCall::TryWrite, ScriptCall::Unlock(Arg::Of(1, 0))]
        )
    );
    assert!(rt;
        matches!(
            second.as_slice(),
            [ScriptCall::TryRead, ScriptCall::Validate(Arg::Number(7))]
        )
    );
    assert!(rt; third.is_empty());
    Ok(())
}
