//! Tests of the whole tool over devices that fail.
use fort_io::{MemSink, MemSource};
use fort_run::run;
use std::alloc::{AllocError, Global};
use std::test::Fail;

const ONE: &str = "(format TRS)\n(fun a 0)\n";

const GROWS: &str = "(format TRS)\n(fun a 0)\n(fun f 1)\n(rule a (f a))\n";

const MANY: &str = "forall x (infinite y (x ->* y))";

/// What is written for `MANY` over `GROWS`.
const CERTIFICATE: &str = "(certificate 1 yes)
(closure star (0 0 kids))
(part 0 0 1 2 3 4 5 6 7 3 4 7 5 6 8 7 8)
(counts 1 (fin 0) (inf 3))
(part 1 0 1 2 2)
(value 3 no)
(value 4 yes)
";

/// The program's name and these words.
fn words(alloc: Global, given: &[&str]) -> Result<Vec<String>, AllocError> {
    let mut all = Vec::new(alloc);
    all.push(String::from_str(alloc, "fort")?)?;
    for word in given {
        all.push(String::from_str(alloc, word)?)?;
    }
    Ok(all)
}

/// `GROWS`, and its certificate behind it.
fn certified(alloc: Global) -> Result<Vec<u8>, AllocError> {
    let mut text = Vec::from_slice(alloc, GROWS.as_bytes())?;
    text.extend_from_slice(CERTIFICATE.as_bytes())?;
    Ok(text)
}

#[test]
fn faults_of_devices(rt: HostRuntime) -> Result<(), Fail> {
    let alloc = rt.alloc();
    let no_calls: [u64; 0] = [];
    // The failing call of the source; the room, the piece and the failing call of the sink.
    for (formula, reads, room, write, writes, status, text) in [
        ("forall x (NF(x))", &[1][..], 100, 100, &no_calls[..], 6, ""),
        ("forall x (NF(x))", &no_calls[..], 100, 100, &[0][..], 7, ""),
        ("forall x (NF(x))", &no_calls[..], 100, 2, &[1][..], 7, "YE"),
        (
            "forall x (NF(x))",
            &no_calls[..],
            2,
            100,
            &no_calls[..],
            7,
            "YE",
        ),
        // nothing is read where the formula is refused
        (
            "NF(x)",
            &[0][..],
            100,
            100,
            &no_calls[..],
            3,
            "REFUSED formula open x\n",
        ),
    ] {
        let words = words(alloc, &["decide", formula])?;
        let mut source = MemSource::new(alloc, ONE.as_bytes(), 8, reads)?;
        let mut sink = MemSink::new(alloc, room, write, writes)?;
        let outcome = run(alloc, words.as_slice(), &mut source, &mut sink);
        assert_eq!(rt; outcome.status, status, "{text}");
        assert_eq!(rt; sink.taken(), text.as_bytes(), "{status}");
    }
    Ok(())
}

#[test]
fn each_read_fails(rt: HostRuntime) -> Result<(), Fail> {
    let alloc = rt.alloc();
    let no_calls: [u64; 0] = [];
    let words = words(alloc, &["check", MANY])?;
    let text = certified(alloc)?;
    // The last read finds the end.
    let calls = text.len().div_ceil(16) + 1;
    for k in 0..=calls {
        let mut source = MemSource::new(alloc, &text, 16, &[k as u64])?;
        let mut sink = MemSink::new(alloc, 100, 100, &no_calls)?;
        let outcome = run(alloc, words.as_slice(), &mut source, &mut sink);
        if k < calls {
            assert_eq!(rt; outcome.status, 6, "{k}");
            assert_eq!(rt; sink.taken(), b"".as_slice(), "{k}");
        } else {
            assert_eq!(rt; outcome.status, 0, "{k}");
            assert_eq!(rt; sink.taken(), b"CERTIFIED YES\n".as_slice(), "{k}");
        }
    }
    Ok(())
}

#[test]
fn each_write_fails(rt: HostRuntime) -> Result<(), Fail> {
    let alloc = rt.alloc();
    let no_calls: [u64; 0] = [];
    let words = words(alloc, &["decide", "--certificate", MANY])?;
    let whole = CERTIFICATE.as_bytes();
    let calls = whole.len().div_ceil(16);
    for k in 0..=calls {
        let mut source = MemSource::new(alloc, GROWS.as_bytes(), 16, &no_calls)?;
        let mut sink = MemSink::new(alloc, 1000, 16, &[k as u64])?;
        let outcome = run(alloc, words.as_slice(), &mut source, &mut sink);
        if k < calls {
            assert_eq!(rt; outcome.status, 7, "{k}");
            assert_eq!(rt; sink.taken(), &whole[..16 * k], "{k}");
        } else {
            assert_eq!(rt; outcome.status, 0, "{k}");
            assert_eq!(rt; sink.taken(), whole, "{k}");
        }
    }
    Ok(())
}

#[test]
fn pieces_of_every_size(rt: HostRuntime) -> Result<(), Fail> {
    let alloc = rt.alloc();
    let no_calls: [u64; 0] = [];
    let words = words(alloc, &["check", MANY])?;
    let text = certified(alloc)?;
    for piece in 1..=text.len() {
        let mut source = MemSource::new(alloc, &text, piece, &no_calls)?;
        let mut sink = MemSink::new(alloc, 100, 1, &no_calls)?;
        let outcome = run(alloc, words.as_slice(), &mut source, &mut sink);
        assert_eq!(rt; outcome.status, 0, "{piece}");
        assert_eq!(rt; sink.taken(), b"CERTIFIED YES\n".as_slice(), "{piece}");
    }
    Ok(())
}

/// A text that is at fault is read on: to the end, or to a read that fails.
#[test]
fn reads_behind_a_fault(rt: HostRuntime) -> Result<(), Fail> {
    let alloc = rt.alloc();
    let words = words(alloc, &["decide", "CR"])?;
    // Eight bytes a read, the fault in the first, eight reads and one that finds the end.
    let text = b") (format TRS) (fun a 0) (fun f 1) (rule a (f a)) ; and no more";
    for k in 0..10u64 {
        let mut source = MemSource::new(alloc, text, 8, &[k])?;
        let mut sink = MemSink::new(alloc, 100, 100, &[])?;
        let outcome = run(alloc, words.as_slice(), &mut source, &mut sink);
        if k < 9 {
            assert_eq!(rt; outcome.status, 6, "{k}");
            assert_eq!(rt; sink.taken(), b"".as_slice(), "{k}");
        } else {
            assert_eq!(rt; outcome.status, 3, "{k}");
            assert_eq!(rt;
                sink.taken(),
                b"REFUSED text extra close at 0\n".as_slice(),
                "{k}"
            );
        }
    }
    Ok(())
}
