//! What `Debug` prints of verdicts: each variant by name, with what is in it.

use history_logs::logs::{Expected, LogForm, Verdict, check_log};
use std::process::Abort;
use std::test::Fail;
use test_support::printing::are_shown_as;

static SHOWN: [(&str, &str); 3] = [
    ("service event 7 2 0 0\n", "Conforms(0, 1)"),
    (
        "service event 7 1 0 1\nA> register 1.0.0.1\nnodes\n= list 1000000000000000000000001\nB> nodes\nB< full\n",
        "Refused(Refusal { line: 6, reply: 6, words: [102, 117, 108, 108], call: 5, command: [66, 62, 32, \
        110, 111, 100, 101, 115], window: 2, needed: [2, 5], \
        configurations: [Configuration { made: [2], possible: One(Nodes([UniqueNodeId { id: \
        UniqueId { value: 79228162514264337593543950337, kind: PhantomData<_> } }])), nodes: \
        [UniqueNodeId { id: UniqueId { value: 79228162514264337593543950337, kind: \
        PhantomData<_> } }], ports: [] }] })",
    ),
    (
        "service event 7 2 0 1\nregister 1.0.0.1\n= full\n",
        "Refused(Refusal { line: 3, reply: 3, words: [102, 117, 108, 108], call: 2, command: [114, 101, 103, \
        105, 115, 116, 101, 114, 32, 49, 46, 48, 46, 48, 46, 49], window: 3, needed: [3], \
        configurations: [Configuration { made: [], possible: Handle(NextHandle { ticket: 0, \
        capacity: 2, taken: [] }), nodes: [], ports: [] }] })",
    ),
];

static EXPECTED: [(Expected, &str); 13] = [
    (Expected::Service, "Service"),
    (Expected::Call, "Call"),
    (Expected::NewNumber, "NewNumber"),
    (Expected::CallAlone, "CallAlone"),
    (Expected::Form(LogForm::WeakList), "Form(WeakList)"),
    (Expected::Reply, "Reply"),
    (Expected::IdleCaller, "IdleCaller"),
    (Expected::OpenCall, "OpenCall"),
    (Expected::LiveCaller, "LiveCaller"),
    (Expected::KnownCaller, "KnownCaller"),
    (Expected::State, "State"),
    (Expected::Newline, "Newline"),
    (Expected::NoCarriageReturn, "NoCarriageReturn"),
];

#[test]
fn verdicts_are_shown_with_what_is_in_them(rt: HostRuntime) -> Result<(), Fail> {
    for (log, text) in &SHOWN {
        let verdict = check_log(rt.alloc(), log.as_bytes())?;
        assert!(rt; are_shown_as(&[(verdict, text)]), "{log}");
    }
    let rest = [
        (Verdict::ManyConfigs(9), "ManyConfigs(9)"),
        (Verdict::ManyOpen(9), "ManyOpen(9)"),
        (Verdict::BadLine(9, Expected::Reply), "BadLine(9, Reply)"),
    ];
    assert!(rt; are_shown_as(&rest));
    assert!(rt; are_shown_as(&EXPECTED));
    Ok(())
}
