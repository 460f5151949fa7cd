// A sink in memory: which call fails, and what it leaves.
use crate::{MemSink, Sink, SinkFault};
use dc_types::Text;
use std::test::Fail;

#[test]
fn puts_fail_by_their_numbers(rt: HostRuntime) -> Result<(), Fail> {
    let mut sink = MemSink {
        bytes: Text::new(rt.alloc()),
        fails: vec![in rt.alloc(); 2]?,
        calls: 0,
        faults: 0,
    };
    assert!(rt; matches!(sink.put(b"a"), Ok(())));
    assert!(rt; matches!(sink.put(b"b"), Err(SinkFault::Failed)));
    assert!(rt; matches!(sink.put(b"c"), Ok(())));
    assert_eq!(rt; sink.bytes.as_slice(), b"ac".as_slice());
    assert_eq!(rt; (sink.calls, sink.faults), (3, 1));
    Ok(())
}
