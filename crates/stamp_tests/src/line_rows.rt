//! Worked rows of the program's engine: the words of its command line, an input, and what comes of it.
use stamp_cli::ServeFault;
use stamp_history::{Field, ReadError};
use stamp_machines::ScriptError;

/// Words, an input and the line that answers it. One that begins with `bad ` says that a history is bad.
pub(crate) type Row = (&'static [&'static str], &'static str, &'static str);

/// Calls one after the other, and their replies.
pub(crate) const REPLAYS: [Row; 18] = [
    (
        &["replay"],
        r#"{"calls":[],"readers":127,"versions":1000}"#,
        r#"{"replies":[],"word":256}"#,
    ),
    (
        &["replay"],
        r#"{"calls":[["optimistic"],["validate",256]],"readers":127,"versions":1000}"#,
        r#"{"replies":[256,"yes"],"word":256}"#,
    ),
    (
        &["replay"],
        r#"{"calls":[["optimistic"],["try_write"],["optimistic"],["validate",256],["unlock_write",384],["validate",384],["try_write"],["validate",384]],"readers":127,"versions":1000}"#,
        r#"{"replies":[256,384,0,"no","done","yes",640,"no"],"word":640}"#,
    ),
    (
        &["replay"],
        r#"{"calls":[["try_read"],["try_read"],["to_write",257],["unlock_read",257],["to_write",258]],"readers":127,"versions":1000}"#,
        r#"{"replies":[257,258,0,"done",384],"word":384}"#,
    ),
    (
        &["replay"],
        r#"{"calls":[["try_write"],["to_read",384],["to_read",513],["to_optimistic",513],["to_write",512]],"readers":127,"versions":1000}"#,
        r#"{"replies":[384,513,513,512,640],"word":640}"#,
    ),
    (
        &["replay"],
        r#"{"calls":[["try_write"],["unlock",384],["try_write"],["to_write",512],["validate",512]],"readers":127,"versions":1}"#,
        r#"{"replies":[384,"done",0,0,"yes"],"word":512}"#,
    ),
    (
        &["replay"],
        r#"{"calls":[["validate",0],["validate",128],["unlock",256],["unlock",9223372036854775808],["to_read",640]],"readers":127,"versions":1000}"#,
        r#"{"replies":["no","no","mismatch","mismatch",0],"word":256}"#,
    ),
    (
        &["replay"],
        r#"{"calls":[["try_read"],["read_count"],["is_read_locked"],["try_unlock_read"],["try_unlock_read"],["is_write_locked"]],"readers":127,"versions":1000}"#,
        r#"{"replies":[257,{"count":1},"yes","yes","no","no"],"word":256}"#,
    ),
    (
        &["replay"],
        r#"{"calls":[["try_write"],["unlock_write",384],["try_write"]],"readers":127,"versions":1}"#,
        r#"{"replies":[384,"done",0],"word":512}"#,
    ),
    (
        &["replay"],
        r#"{"calls":[["try_write"],["unlock_write",256],["unlock_write",640],["unlock_write",0]],"readers":127,"versions":1000}"#,
        r#"{"replies":[384,"mismatch","mismatch","mismatch"],"word":384}"#,
    ),
    (
        &["replay"],
        r#"{"calls":[["write_lock"],["read_lock"],["write_lock"]],"readers":127,"versions":0}"#,
        r#"{"replies":[0,257,0],"word":257}"#,
    ),
    (
        &["replay"],
        r#"{"calls":[["try_read"],["try_read"],["unlock",257],["unlock",257],["unlock",257]],"readers":127,"versions":1000}"#,
        r#"{"replies":[257,258,"done","done","mismatch"],"word":256}"#,
    ),
    (
        &["replay"],
        r#"{"calls":[["try_read"],["to_optimistic",257],["validate",257],["to_read",256]],"readers":127,"versions":1000}"#,
        r#"{"replies":[257,256,"yes",257],"word":257}"#,
    ),
    (
        &["replay"],
        r#"{"calls":[["try_read"],["to_read",256],["to_write",257],["try_unlock_write"],["try_unlock_write"],["read_lock"],["to_write",513]],"readers":1,"versions":1}"#,
        r#"{"replies":[257,0,384,"yes","no",513,0],"word":513}"#,
    ),
    (
        &["replay"],
        r#"{"calls":[],"readers":127,"versions":36028797018963966}"#,
        r#"{"replies":[],"word":256}"#,
    ),
    (
        &["replay"],
        r#"{"calls":[["unlock",18446744073709551615]],"readers":127,"versions":1000}"#,
        r#"{"replies":["mismatch"],"word":256}"#,
    ),
    (
        &["replay"],
        r#"{"calls":[["try_write"],["unlock_read",384],["unlock_write",257],["to_write",385],["to_optimistic",512],["to_read",256],["validate",512],["unlock",384]],"readers":127,"versions":1000}"#,
        r#"{"replies":[384,"mismatch","mismatch",0,0,0,"no","done"],"word":512}"#,
    ),
    (
        &["replay"],
        r#"{"calls":[["optimistic"],["try_write"],["optimistic"],["validate",131072],["unlock_write",196608],["validate",196608],["try_write"],["validate",196608]],"layout":2,"readers":127,"versions":1000}"#,
        r#"{"replies":[131072,196608,0,"no","done","yes",327680,"no"],"word":327680}"#,
    ),
];

/// Scripts, and the histories that they are run to, with a report and without one.
pub(crate) const RUNS: [Row; 21] = [
    (
        &["run"],
        r#"{"readers":127,"steps":[0,1,1,1,1,0,0],"threads":[[["try_write"]],[["try_write"],["unlock_write",[1,0]]]],"versions":1000,"width":0}"#,
        r#"{"entries":[{"call":["try_write"],"first":1,"last":2,"point":2,"reply":384,"thread":1},{"call":["unlock_write",384],"first":3,"last":4,"point":4,"reply":"done","thread":1},{"call":["try_write"],"first":0,"last":6,"point":6,"reply":640,"thread":0}],"format":1,"readers":127,"versions":1000,"width":0}"#,
    ),
    (
        &["run"],
        r#"{"readers":127,"steps":[0,0,1,1,1,1,1,0,0,0,0,0,0,0,0],"threads":[[["get"]],[["put",[7,9]]]],"versions":1000,"width":2}"#,
        r#"{"entries":[{"call":["put",[7,9]],"first":2,"last":6,"point":6,"reply":"done","thread":1},{"call":["get"],"first":0,"last":14,"point":14,"reply":[7,9],"thread":0}],"format":1,"readers":127,"versions":1000,"width":2}"#,
    ),
    (
        &["run"],
        r#"{"readers":127,"steps":[0,0,0,0,1,1,1,1,1],"threads":[[["get"]],[["put",[7,9]]]],"versions":1000,"width":2}"#,
        r#"{"entries":[{"call":["get"],"first":0,"last":3,"point":3,"reply":[0,0],"thread":0},{"call":["put",[7,9]],"first":4,"last":8,"point":8,"reply":"done","thread":1}],"format":1,"readers":127,"versions":1000,"width":2}"#,
    ),
    (
        &["run"],
        r#"{"readers":127,"steps":[0,1,0,1],"threads":[[["try_write"]],[["try_write"]]],"versions":1000,"width":0}"#,
        r#"{"entries":[{"call":["try_write"],"first":0,"last":2,"point":2,"reply":384,"thread":0},{"call":["try_write"],"first":1,"last":3,"point":3,"reply":0,"thread":1}],"format":1,"readers":127,"versions":1000,"width":0}"#,
    ),
    (
        &["run"],
        r#"{"readers":127,"steps":[0,1,0,1,1],"threads":[[["try_write"]],[["unlock_write",[0,0]],["unlock_write",[0,0]]]],"versions":1000,"width":0}"#,
        r#"{"entries":[{"call":["unlock_write",0],"first":1,"last":1,"point":1,"reply":"mismatch","thread":1},{"call":["try_write"],"first":0,"last":2,"point":2,"reply":384,"thread":0},{"call":["unlock_write",384],"first":3,"last":4,"point":4,"reply":"done","thread":1}],"format":1,"readers":127,"versions":1000,"width":0}"#,
    ),
    (
        &["run"],
        r#"{"readers":127,"steps":[0,1,1,1,1,0],"threads":[[["try_write"]],[["try_read"],["unlock_read",257]]],"versions":1000,"width":0}"#,
        r#"{"entries":[{"call":["try_read"],"first":1,"last":2,"point":2,"reply":257,"thread":1},{"call":["unlock_read",257],"first":3,"last":4,"point":4,"reply":"done","thread":1},{"call":["try_write"],"first":0,"last":5,"point":5,"reply":384,"thread":0}],"format":1,"readers":127,"versions":1000,"width":0}"#,
    ),
    (
        &["run"],
        r#"{"readers":127,"steps":[0,0,0,0,0,0,0],"threads":[[["put_if",[0],[5]]]],"versions":1000,"width":1}"#,
        r#"{"entries":[{"call":["put_if",[0],[5]],"first":0,"last":6,"point":6,"reply":"yes","thread":0}],"format":1,"readers":127,"versions":1000,"width":1}"#,
    ),
    (
        &["run"],
        r#"{"readers":127,"steps":[0,0,1,1,0,1,0,0,0,0,1,1,1,1,0,0,0,0],"threads":[[["put_if",[0],[5]]],[["put_if",[0],[6]]]],"versions":1000,"width":1}"#,
        r#"{"entries":[{"call":["put_if",[0],[6]],"first":2,"last":13,"point":13,"reply":"yes","thread":1},{"call":["put_if",[0],[5]],"first":0,"last":17,"point":17,"reply":"no","thread":0}],"format":1,"readers":127,"versions":1000,"width":1}"#,
    ),
    (
        &["run"],
        r#"{"readers":127,"steps":[0,0,0],"threads":[[]],"versions":1000,"width":0}"#,
        r#"{"entries":[],"format":1,"readers":127,"versions":1000,"width":0}"#,
    ),
    (
        &["run"],
        r#"{"readers":127,"steps":[0,1,1,0],"threads":[[["optimistic"],["validate",[0,0]]],[["try_write"]]],"versions":1000,"width":0}"#,
        r#"{"entries":[{"call":["optimistic"],"first":0,"last":0,"point":0,"reply":256,"thread":0},{"call":["try_write"],"first":1,"last":2,"point":2,"reply":384,"thread":1},{"call":["validate",256],"first":3,"last":3,"point":3,"reply":"no","thread":0}],"format":1,"readers":127,"versions":1000,"width":0}"#,
    ),
    (
        &["run"],
        r#"{"readers":127,"steps":[0,1,1,0,1,1,0,0],"threads":[[["try_read"]],[["try_read"],["try_read"]]],"versions":1000,"width":0}"#,
        r#"{"entries":[{"call":["try_read"],"first":1,"last":2,"point":2,"reply":257,"thread":1},{"call":["try_read"],"first":4,"last":5,"point":5,"reply":258,"thread":1},{"call":["try_read"],"first":0,"last":7,"point":7,"reply":259,"thread":0}],"format":1,"readers":127,"versions":1000,"width":0}"#,
    ),
    (
        &["run"],
        r#"{"readers":127,"steps":[0,0],"threads":[[["unlock",[0,5]],["optimistic"]]],"versions":1000,"width":0}"#,
        r#"{"entries":[{"call":["unlock",0],"first":0,"last":0,"point":0,"reply":"mismatch","thread":0},{"call":["optimistic"],"first":1,"last":1,"point":1,"reply":256,"thread":0}],"format":1,"readers":127,"versions":1000,"width":0}"#,
    ),
    (
        &["run"],
        r#"{"readers":127,"steps":[1,1,0,0,1,1,0,0],"threads":[[["write_lock"]],[["read_lock"],["unlock_read",[1,0]]]],"versions":1000,"width":0}"#,
        r#"{"entries":[{"call":["read_lock"],"first":0,"last":1,"point":1,"reply":257,"thread":1},{"call":["unlock_read",257],"first":4,"last":5,"point":5,"reply":"done","thread":1},{"call":["write_lock"],"first":2,"last":7,"point":7,"reply":384,"thread":0}],"format":1,"readers":127,"versions":1000,"width":0}"#,
    ),
    (
        &["run"],
        r#"{"readers":127,"steps":[0,0,0,0,0],"threads":[[["put_if",[3],[5]]]],"versions":1000,"width":1}"#,
        r#"{"entries":[{"call":["put_if",[3],[5]],"first":0,"last":4,"point":4,"reply":"no","thread":0}],"format":1,"readers":127,"versions":1000,"width":1}"#,
    ),
    (
        &["run"],
        r#"{"readers":127,"steps":[0,0,0,0,0,0,0,0,0,0,0,0,0,0,0,0,0,0],"threads":[[["get"]]],"versions":1000,"width":16}"#,
        r#"{"entries":[{"call":["get"],"first":0,"last":17,"point":17,"reply":[0,0,0,0,0,0,0,0,0,0,0,0,0,0,0,0],"thread":0}],"format":1,"readers":127,"versions":1000,"width":16}"#,
    ),
    (
        &["run"],
        r#"{"readers":127,"steps":[0,0,0,0,0,0,0],"threads":[[["put",[7]],["get"]]],"versions":0,"width":1}"#,
        r#"{"entries":[{"call":["put",[7]],"first":0,"last":3,"point":3,"reply":"done","thread":0},{"call":["get"],"first":4,"last":6,"point":6,"reply":[7],"thread":0}],"format":1,"readers":127,"versions":0,"width":1}"#,
    ),
    (
        &["run"],
        r#"{"layout":2,"readers":127,"steps":[0,1,1,1,1,0,0],"threads":[[["try_write"]],[["try_write"],["unlock_write",[1,0]]]],"versions":1000,"width":0}"#,
        r#"{"entries":[{"call":["try_write"],"first":1,"last":2,"point":2,"reply":196608,"thread":1},{"call":["unlock_write",196608],"first":3,"last":4,"point":4,"reply":"done","thread":1},{"call":["try_write"],"first":0,"last":6,"point":6,"reply":327680,"thread":0}],"format":2,"layout":2,"readers":127,"versions":1000,"width":0}"#,
    ),
    (
        &["run", "--report"],
        r#"{"readers":127,"steps":[0,1,1,1,1,0,0],"threads":[[["try_write"]],[["try_write"],["unlock_write",[1,0]]]],"versions":1000,"width":0}"#,
        r#"{"entries":[{"call":["try_write"],"first":1,"last":2,"point":2,"reply":384,"thread":1},{"call":["unlock_write",384],"first":3,"last":4,"point":4,"reply":"done","thread":1},{"call":["try_write"],"first":0,"last":6,"point":6,"reply":640,"thread":0}],"format":1,"readers":127,"report":[[2,0],[2,0],[3,2]],"versions":1000,"width":0}"#,
    ),
    (
        &["run", "--report"],
        r#"{"readers":127,"steps":[0,1,0,1],"threads":[[["try_write"]],[["try_write"]]],"versions":1000,"width":0}"#,
        r#"{"entries":[{"call":["try_write"],"first":0,"last":2,"point":2,"reply":384,"thread":0},{"call":["try_write"],"first":1,"last":3,"point":3,"reply":0,"thread":1}],"format":1,"readers":127,"report":[[2,0],[2,1]],"versions":1000,"width":0}"#,
    ),
    (
        &["run", "--report"],
        r#"{"readers":127,"steps":[0,1,1,0,1,1,0,0],"threads":[[["try_read"]],[["try_read"],["try_read"]]],"versions":1000,"width":0}"#,
        r#"{"entries":[{"call":["try_read"],"first":1,"last":2,"point":2,"reply":257,"thread":1},{"call":["try_read"],"first":4,"last":5,"point":5,"reply":258,"thread":1},{"call":["try_read"],"first":0,"last":7,"point":7,"reply":259,"thread":0}],"format":1,"readers":127,"report":[[2,0],[2,0],[4,2]],"versions":1000,"width":0}"#,
    ),
    (
        &["run", "--report"],
        r#"{"readers":127,"steps":[0,0,1,1,0,1,0,0,0,0,1,1,1,1,0,0,0,0],"threads":[[["put_if",[0],[5]]],[["put_if",[0],[6]]]],"versions":1000,"width":1}"#,
        r#"{"entries":[{"call":["put_if",[0],[6]],"first":2,"last":13,"point":13,"reply":"yes","thread":1},{"call":["put_if",[0],[5]],"first":0,"last":17,"point":17,"reply":"no","thread":0}],"format":1,"readers":127,"report":[[7,0],[11,0]],"versions":1000,"width":1}"#,
    ),
];

/// Histories that are judged.
pub(crate) const CHECKS: [Row; 18] = [
    (
        &["check"],
        r#"{"entries":[{"call":["try_write"],"first":1,"last":2,"point":2,"reply":384,"thread":1},{"call":["unlock_write",384],"first":3,"last":4,"point":4,"reply":"done","thread":1},{"call":["try_write"],"first":0,"last":6,"point":6,"reply":640,"thread":0}],"format":1,"readers":127,"versions":1000,"width":0}"#,
        "ok 3",
    ),
    (
        &["check"],
        r#"{"entries":[{"call":["try_write"],"first":2,"last":3,"point":1,"reply":384,"thread":0}],"format":1,"readers":127,"versions":1000,"width":0}"#,
        "bad 0 interval",
    ),
    (
        &["check"],
        r#"{"entries":[{"call":["try_write"],"first":0,"last":3,"point":1,"reply":384,"thread":0},{"call":["unlock_write",384],"first":2,"last":5,"point":4,"reply":"done","thread":0}],"format":1,"readers":127,"versions":1000,"width":0}"#,
        "bad 1 overlap",
    ),
    (
        &["check"],
        r#"{"entries":[{"call":["try_write"],"first":0,"last":1,"point":1,"reply":384,"thread":0},{"call":["try_write"],"first":2,"last":3,"point":3,"reply":384,"thread":1}],"format":1,"readers":127,"versions":1000,"width":0}"#,
        "bad 1 reply",
    ),
    (
        &["check"],
        r#"{"entries":[{"call":["try_write"],"first":0,"last":1,"point":1,"reply":384,"thread":0},{"call":["try_write"],"first":0,"last":3,"point":1,"reply":384,"thread":1}],"format":1,"readers":127,"versions":1000,"width":0}"#,
        "bad 1 order",
    ),
    (
        &["check"],
        r#"{"entries":[],"format":1,"readers":127,"versions":1000,"width":0}"#,
        "ok 0",
    ),
    (
        &["check"],
        r#"{"entries":[{"call":["try_write"],"first":0,"last":1,"point":0,"reply":384,"thread":0},{"call":["unlock_write",384],"first":1,"last":2,"point":1,"reply":"done","thread":0}],"format":1,"readers":127,"versions":1000,"width":0}"#,
        "bad 1 overlap",
    ),
    (
        &["check"],
        r#"{"entries":[{"call":["try_write"],"first":0,"last":0,"point":0,"reply":384,"thread":0},{"call":["write_lock"],"first":1,"last":1,"point":1,"reply":0,"thread":1}],"format":1,"readers":127,"versions":1000,"width":0}"#,
        "bad 1 reply",
    ),
    (
        &["check"],
        r#"{"entries":[{"call":["try_write"],"first":0,"last":0,"point":0,"reply":384,"thread":0},{"call":["write_lock"],"first":1,"last":1,"point":1,"reply":0,"thread":1}],"format":1,"readers":127,"versions":1,"width":0}"#,
        "ok 2",
    ),
    (
        &["check"],
        r#"{"entries":[{"call":["get"],"first":0,"last":0,"point":0,"reply":[1],"thread":0}],"format":1,"readers":127,"versions":1000,"width":1}"#,
        "bad 0 reply",
    ),
    (
        &["check"],
        r#"{"entries":[{"call":["try_write"],"first":1,"last":2,"point":0,"reply":385,"thread":0}],"format":1,"readers":127,"versions":1000,"width":0}"#,
        "bad 0 interval",
    ),
    (
        &["check"],
        r#"{"entries":[{"call":["try_write"],"first":1,"last":2,"point":2,"reply":384,"thread":1},{"call":["unlock_write",384],"first":3,"last":4,"point":4,"reply":"done","thread":1},{"call":["try_write"],"first":0,"last":6,"point":6,"reply":640,"thread":0}],"format":1,"readers":127,"report":[[9,9],[0,0],[1,7]],"versions":1000,"width":0}"#,
        "ok 3",
    ),
    (
        &["check"],
        r#"{"entries":[{"call":["try_write"],"first":1,"last":2,"point":2,"reply":196608,"thread":1},{"call":["unlock_write",196608],"first":3,"last":4,"point":4,"reply":"done","thread":1},{"call":["try_write"],"first":0,"last":6,"point":6,"reply":327680,"thread":0}],"format":2,"layout":2,"readers":127,"versions":1000,"width":0}"#,
        "ok 3",
    ),
    (
        &["check"],
        r#"{"entries":[{"call":["try_write"],"first":1,"last":2,"point":2,"reply":384,"thread":1},{"call":["unlock_write",384],"first":3,"last":4,"point":4,"reply":"done","thread":1},{"call":["try_write"],"first":0,"last":6,"point":6,"reply":640,"thread":0}],"format":2,"layout":1,"readers":127,"versions":1000,"width":0}"#,
        "ok 3",
    ),
    (
        &["check"],
        r#"{"entries":[{"call":["unlock",128],"first":0,"last":0,"point":0,"reply":"mismatch","thread":0}],"format":1,"readers":127,"versions":1000,"width":0}"#,
        "ok 1",
    ),
    (
        &["check"],
        r#"{"entries":[{"call":["unlock",0],"first":0,"last":0,"point":0,"reply":"mismatch","thread":0}],"format":2,"layout":2,"readers":127,"versions":1000,"width":0}"#,
        "ok 1",
    ),
    (
        &["check"],
        r#"{"entries":[{"call":["try_write"],"first":0,"last":0,"point":0,"reply":257,"thread":0}],"format":1,"readers":127,"versions":1000,"width":0}"#,
        "bad 0 reply",
    ),
    (
        &["check"],
        r#"{"entries":[{"call":["try_write"],"first":0,"last":0,"point":0,"reply":131073,"thread":0}],"format":2,"layout":2,"readers":127,"versions":1000,"width":0}"#,
        "bad 0 reply",
    ),
];

/// Histories, and the same in layout 2.
pub(crate) const MIGRATIONS: [Row; 7] = [
    (
        &["migrate"],
        r#"{"entries":[{"call":["try_write"],"first":1,"last":2,"point":2,"reply":384,"thread":1},{"call":["unlock_write",384],"first":3,"last":4,"point":4,"reply":"done","thread":1},{"call":["try_write"],"first":0,"last":6,"point":6,"reply":640,"thread":0}],"format":1,"readers":127,"versions":1000,"width":0}"#,
        r#"{"entries":[{"call":["try_write"],"first":1,"last":2,"point":2,"reply":196608,"thread":1},{"call":["unlock_write",196608],"first":3,"last":4,"point":4,"reply":"done","thread":1},{"call":["try_write"],"first":0,"last":6,"point":6,"reply":327680,"thread":0}],"format":2,"layout":2,"readers":127,"versions":1000,"width":0}"#,
    ),
    (
        &["migrate"],
        r#"{"entries":[{"call":["try_write"],"first":1,"last":2,"point":2,"reply":196608,"thread":1},{"call":["unlock_write",196608],"first":3,"last":4,"point":4,"reply":"done","thread":1},{"call":["try_write"],"first":0,"last":6,"point":6,"reply":327680,"thread":0}],"format":2,"layout":2,"readers":127,"versions":1000,"width":0}"#,
        r#"{"entries":[{"call":["try_write"],"first":1,"last":2,"point":2,"reply":196608,"thread":1},{"call":["unlock_write",196608],"first":3,"last":4,"point":4,"reply":"done","thread":1},{"call":["try_write"],"first":0,"last":6,"point":6,"reply":327680,"thread":0}],"format":2,"layout":2,"readers":127,"versions":1000,"width":0}"#,
    ),
    (
        &["migrate"],
        r#"{"entries":[{"call":["try_write"],"first":1,"last":2,"point":2,"reply":384,"thread":1},{"call":["unlock_write",384],"first":3,"last":4,"point":4,"reply":"done","thread":1},{"call":["try_write"],"first":0,"last":6,"point":6,"reply":640,"thread":0}],"format":2,"layout":1,"readers":127,"versions":1000,"width":0}"#,
        r#"{"entries":[{"call":["try_write"],"first":1,"last":2,"point":2,"reply":196608,"thread":1},{"call":["unlock_write",196608],"first":3,"last":4,"point":4,"reply":"done","thread":1},{"call":["try_write"],"first":0,"last":6,"point":6,"reply":327680,"thread":0}],"format":2,"layout":2,"readers":127,"versions":1000,"width":0}"#,
    ),
    (
        &["migrate"],
        r#"{"entries":[{"call":["unlock",128],"first":0,"last":0,"point":0,"reply":"mismatch","thread":0}],"format":1,"readers":127,"versions":1000,"width":0}"#,
        r#"{"entries":[{"call":["unlock",0],"first":0,"last":0,"point":0,"reply":"mismatch","thread":0}],"format":2,"layout":2,"readers":127,"versions":1000,"width":0}"#,
    ),
    (
        &["migrate"],
        r#"{"entries":[{"call":["try_write"],"first":0,"last":0,"point":0,"reply":257,"thread":0}],"format":1,"readers":127,"versions":1000,"width":0}"#,
        r#"{"entries":[{"call":["try_write"],"first":0,"last":0,"point":0,"reply":131073,"thread":0}],"format":2,"layout":2,"readers":127,"versions":1000,"width":0}"#,
    ),
    (
        &["migrate"],
        r#"{"entries":[],"format":1,"readers":127,"versions":36028797018963966,"width":0}"#,
        r#"{"entries":[],"format":2,"layout":2,"readers":127,"versions":70368744177662,"width":0}"#,
    ),
    (
        &["migrate"],
        r#"{"entries":[{"call":["try_write"],"first":1,"last":2,"point":2,"reply":384,"thread":1},{"call":["unlock_write",384],"first":3,"last":4,"point":4,"reply":"done","thread":1},{"call":["try_write"],"first":0,"last":6,"point":6,"reply":640,"thread":0}],"format":1,"readers":127,"report":[[2,0],[2,0],[3,2]],"versions":1000,"width":0}"#,
        r#"{"entries":[{"call":["try_write"],"first":1,"last":2,"point":2,"reply":196608,"thread":1},{"call":["unlock_write",196608],"first":3,"last":4,"point":4,"reply":"done","thread":1},{"call":["try_write"],"first":0,"last":6,"point":6,"reply":327680,"thread":0}],"format":2,"layout":2,"readers":127,"report":[[2,0],[2,0],[3,2]],"versions":1000,"width":0}"#,
    ),
];

/// Numbers, and what they are as stamps.
pub(crate) const STAMPS: [Row; 18] = [
    (&["stamp", "384"], "", "write 1"),
    (&["stamp", "257"], "", "read 0 1"),
    (&["stamp", "256"], "", "optimistic 0"),
    (&["stamp", "128"], "", "none"),
    (&["stamp", "0"], "", "none"),
    (&["stamp", "385"], "", "none"),
    (&["stamp", "9223372036854775808"], "", "none"),
    (
        &["stamp", "9223372036854775424"],
        "",
        "write 36028797018963966",
    ),
    (
        &["stamp", "9223372036854775552"],
        "",
        "optimistic 36028797018963966",
    ),
    (
        &["stamp", "9223372036854775679"],
        "",
        "read 36028797018963966 127",
    ),
    (&["stamp", "9223372036854775680"], "", "none"),
    (&["stamp", "--layout", "1", "384"], "", "write 1"),
    (&["stamp", "--layout", "2", "384"], "", "none"),
    (&["stamp", "--layout", "2", "131072"], "", "optimistic 0"),
    (&["stamp", "--layout", "2", "196607"], "", "read 0 65535"),
    (&["stamp", "--layout", "2", "196608"], "", "write 1"),
    (&["stamp", "--layout", "2", "196609"], "", "none"),
    (
        &["stamp", "--layout", "2", "9223372036854579200"],
        "",
        "write 70368744177662",
    ),
];

/// Words, an input, and how it is refused: the fault, and its line.
pub(crate) type RefusedRow = (
    &'static [&'static str],
    &'static str,
    ServeFault,
    &'static str,
);

pub(crate) const REFUSED: [RefusedRow; 20] = [
    (
        &["replay"],
        r#"{"calls":[["try_read"],["write_lock"]],"readers":127,"versions":1000}"#,
        ServeFault::Waits(1),
        "stamped: call 1 waits",
    ),
    (
        &["replay"],
        r#"{"calls":["#,
        ServeFault::Refused(ReadError::NotJson),
        "stamped: not json",
    ),
    (
        &["run"],
        r#"{"readers":127,"steps":[0,64],"threads":[[],[]],"versions":1000,"width":0}"#,
        ServeFault::Refused(ReadError::BadScript(ScriptError::NoSuchThread(1))),
        "stamped: script refused: no thread at step 1",
    ),
    (
        &["replay"],
        r#"{"calls":[["read_lock"],["read_lock"]],"readers":1,"versions":1000}"#,
        ServeFault::Waits(1),
        "stamped: call 1 waits",
    ),
    (
        &["run"],
        r#"{"readers":127,"steps":[],"threads":[[["put",[1]]]],"versions":1000,"width":2}"#,
        ServeFault::Refused(ReadError::BadScript(ScriptError::RecordWidth)),
        "stamped: script refused: record width",
    ),
    (
        &["run"],
        r#"{"readers":127,"steps":[],"threads":[[["get"]]],"versions":1000,"width":0}"#,
        ServeFault::Refused(ReadError::BadScript(ScriptError::RecordWidth)),
        "stamped: script refused: record width",
    ),
    (
        &["replay"],
        r#"{"calls":5,"readers":0,"versions":1000}"#,
        ServeFault::Refused(ReadError::Limit(Field::Readers)),
        "stamped: over a limit: readers",
    ),
    (
        &["replay"],
        r#"{"calls":5,"readers":128,"versions":1000}"#,
        ServeFault::Refused(ReadError::Limit(Field::Readers)),
        "stamped: over a limit: readers",
    ),
    (
        &["replay"],
        r#"{"calls":[],"readers":127,"versions":36028797018963967}"#,
        ServeFault::Refused(ReadError::Limit(Field::Versions)),
        "stamped: over a limit: versions",
    ),
    (
        &["replay"],
        "{}",
        ServeFault::Refused(ReadError::NotScript(Field::Top)),
        "stamped: not a script: top",
    ),
    (
        &["replay"],
        r#"{"calls":[["unlock",-1]],"readers":127,"versions":1000}"#,
        ServeFault::Refused(ReadError::NotScript(Field::Call(0))),
        "stamped: not a script: call 0",
    ),
    (
        &["replay"],
        r#"{"calls":[["unlock",1.0]],"readers":127,"versions":1000}"#,
        ServeFault::Refused(ReadError::NotScript(Field::Call(0))),
        "stamped: not a script: call 0",
    ),
    (
        &["replay"],
        r#"{"calls":[["unlock",18446744073709551616]],"readers":127,"versions":1000}"#,
        ServeFault::Refused(ReadError::NotScript(Field::Call(0))),
        "stamped: not a script: call 0",
    ),
    (
        &["replay"],
        r#"{"calls":[["unlock",[0,0]]],"readers":127,"versions":1000}"#,
        ServeFault::Refused(ReadError::NotScript(Field::Call(0))),
        "stamped: not a script: call 0",
    ),
    (
        &["replay"],
        r#"{"calls":[],"layout":2,"readers":65536,"versions":1000}"#,
        ServeFault::Refused(ReadError::Limit(Field::Readers)),
        "stamped: over a limit: readers",
    ),
    (
        &["check"],
        r#"{"entries":[{"call":["try_write"],"first":1,"last":2,"point":2,"reply":384,"thread":1},{"call":["unlock_write",384],"first":3,"last":4,"point":4,"reply":"done","thread":1},{"call":["try_write"],"first":0,"last":6,"point":6,"reply":640,"thread":0}],"format":1,"readers":127,"report":[[2,0]],"versions":1000,"width":0}"#,
        ServeFault::Refused(ReadError::NotHistory(Field::Report)),
        "stamped: not a history: report",
    ),
    (
        &["check"],
        r#"{"entries":[{"call":["try_write"],"first":1,"last":2,"point":2,"reply":384,"thread":1},{"call":["unlock_write",384],"first":3,"last":4,"point":4,"reply":"done","thread":1},{"call":["try_write"],"first":0,"last":6,"point":6,"reply":640,"thread":0}],"format":1,"layout":1,"readers":127,"versions":1000,"width":0}"#,
        ServeFault::Refused(ReadError::NotHistory(Field::Format)),
        "stamped: not a history: format",
    ),
    (
        &["check"],
        r#"{"entries":[{"call":["try_write"],"first":1,"last":2,"point":2,"reply":384,"thread":1},{"call":["unlock_write",384],"first":3,"last":4,"point":4,"reply":"done","thread":1},{"call":["try_write"],"first":0,"last":6,"point":6,"reply":640,"thread":0}],"format":2,"readers":127,"versions":1000,"width":0}"#,
        ServeFault::Refused(ReadError::NotHistory(Field::Format)),
        "stamped: not a history: format",
    ),
    (
        &["check"],
        r#"{"entries":[{"call":["try_write"],"first":1,"last":2,"point":2,"reply":384,"thread":1},{"call":["unlock_write",384],"first":3,"last":4,"point":4,"reply":"done","thread":1},{"call":["try_write"],"first":0,"last":6,"point":6,"reply":640,"thread":0}],"format":2,"layout":3,"readers":127,"versions":1000,"width":0}"#,
        ServeFault::Refused(ReadError::NotHistory(Field::Layout)),
        "stamped: not a history: layout",
    ),
    (
        &["migrate"],
        r#"{"entries":[{"call":["try_write"],"first":0,"last":0,"point":0,"reply":128,"thread":0}],"format":1,"readers":127,"versions":1000,"width":0}"#,
        ServeFault::BadReply(0),
        "stamped: bad reply at entry 0",
    ),
];
