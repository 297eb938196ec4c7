// Symbols of the small grammar: read whole and in pieces, cut and changed.
#![tactic(auto)]

ghost use Rattle.std.specs.Prelude.{◌≤◌, length};

use crate::Paths;
use std::alloc::Global;
use std::test::Fail;
use sym_core::Refusal;
use sym_shape::{Reader, Row, Shape, TOKEN, read, read_into};

/// Well shaped symbols.
const SYMBOLS: [&[u8]; 6] = [
    b"_TC3foo",
    b"_TC0",
    b"_TIC3fooRL0_hE",
    b"_TIC1_aRL0_hhE",
    b"_TIC3fooB12_RhIC3barEE",
    b"_TIIC3fooEB7_B8_hE",
];

/// Feeds a piece and takes the steps that it allows one by one.
fn feed(reader: &mut Reader<Paths>, piece: &[u8]) -> Result<(), Refusal> {
    if reader.ended() || reader.len() > 1_000 || piece.len() > 1_000 {
        return Err(Refusal::TooLong);
    }
    reader.feed(piece)?;
    for _ in 0..40_000 {
        if reader.step(&Paths)? {
            return Ok(());
        }
    }
    Err(Refusal::TooLong)
}

/// The answer of a reader that is fed a first piece and then the rest in pieces of a size.
fn fed(alloc: Global, first: &[u8], rest: &[u8], size: usize) -> Result<Shape, Refusal> {
    let mut reader = Reader::new(alloc, &Paths)?;
    if !first.is_empty() {
        feed(&mut reader, first)?;
    }
    if size > 0 {
        for piece in rest.chunks(size) {
            feed(&mut reader, piece)?;
        }
    }
    feed(&mut reader, b"")?;
    if !reader.ready() {
        return Err(Refusal::TooLong);
    }
    let (_bytes, shape) = reader.finish()?;
    Ok(shape)
}

/// Whether two readings have the same outcome.
fn alike(one: &Result<Shape, Refusal>, other: &Result<Shape, Refusal>) -> bool {
    match (one, other) {
        (Ok(one), Ok(other)) => one.rows() == other.rows(),
        (Err(one), Err(other)) => one == other,
        _ => false,
    }
}

/// Whether a symbol is read alike whole, byte by byte and cut at each place.
fn reads_alike(alloc: Global, s: &[u8]) -> bool
    requires { length s.now ≤ 1000 }
{
    let whole = read(alloc, &Paths, s);
    if !alike(&fed(alloc, b"", s, 1), &whole) {
        return false;
    }
    for cut in 0..s.len() {
        if !alike(&fed(alloc, &s[..cut], &s[cut..], 1_000), &whole) {
            return false;
        }
    }
    true
}

/// Whether a changed symbol is read as well shaped, or is bad at a place or after it.
fn is_bad_behind(outcome: Result<Shape, Refusal>, place: usize) -> bool {
    match outcome {
        Ok(_shape) => true,
        Err(Refusal::Malformed { at }) => at as usize >= place,
        Err(_refusal) => false,
    }
}

#[test]
fn rows_are_in_order(rt: HostRuntime) -> Result<(), Fail> {
    let shape = read(rt.alloc(), &Paths, b"_TC3foo")?;
    let symbol = Row {
        rule: 0,
        after: 0,
        from: 0,
        to: 7,
        end: 3,
    };
    let path = Row {
        rule: 1,
        from: 2,
        ..symbol
    };
    let name = Row {
        rule: TOKEN,
        from: 4,
        ..symbol
    };
    assert_eq!(rt; shape.rows(), &[symbol, path, name][..]);
    assert!(rt; shape.steps() >= 3);
    Ok(())
}

#[test]
fn first_bad_bytes_are_found(rt: HostRuntime) {
    for (s, at) in [
        (&b"_TC3fo"[..], 6),
        (&b"_TC3foo!"[..], 7),
        (&b"_TC03foo"[..], 4),
        (&b""[..], 0),
        (&b"_TIC3fooRL0!hE"[..], 11),
        (&b"_TIC3fooB_hE"[..], 9),
    ] {
        assert!(rt; s.len() <= 1_000);
        assert_eq!(rt;
            read(rt.alloc(), &Paths, s).err(),
            Some(Refusal::Malformed { at })
        );
        assert!(rt; reads_alike(rt.alloc(), s));
    }
}

#[test]
fn symbols_are_read_in_pieces(rt: HostRuntime) {
    for s in SYMBOLS {
        assert!(rt; s.len() <= 1_000);
        assert!(rt; read(rt.alloc(), &Paths, s).is_ok());
        assert!(rt; reads_alike(rt.alloc(), s));
    }
}

#[test]
fn symbols_are_cut_and_changed(rt: HostRuntime) -> Result<(), Fail> {
    for s in SYMBOLS {
        assert!(rt; s.len() <= 1_000);
        for place in 0..s.len() {
            assert!(rt; is_bad_behind(read(rt.alloc(), &Paths, &s[..place]), place));
            for byte in [b'!', b'0', 255] {
                let mut changed = Vec::from_slice(rt.alloc(), s)?;
                assert!(rt; changed.len() == s.len());
                changed[place] = byte;
                assert!(rt; is_bad_behind(read(rt.alloc(), &Paths, &changed), place));
                assert!(rt; reads_alike(rt.alloc(), &changed));
            }
        }
    }
    Ok(())
}

#[test]
fn a_bad_byte_is_told_before_the_end(rt: HostRuntime) -> Result<(), Fail> {
    let mut reader = Reader::new(rt.alloc(), &Paths)?;
    assert_eq!(rt;
        feed(&mut reader, b"_TQ"),
        Err(Refusal::Malformed { at: 2 })
    );
    assert!(rt; !reader.ready());
    assert_eq!(rt;
        feed(&mut reader, b"C3foo"),
        Err(Refusal::Malformed { at: 2 })
    );
    assert_eq!(rt; reader.len(), 3);
    Ok(())
}

#[test]
fn lists_are_used_again(rt: HostRuntime) -> Result<(), Fail> {
    let mut reader = Reader::new(rt.alloc(), &Paths)?;
    let _refused = feed(&mut reader, b"_TQ");
    reader.reset();
    assert!(rt; feed(&mut reader, b"_TC3foo").is_ok());
    assert!(rt; feed(&mut reader, b"").is_ok());
    assert!(rt; reader.ready());
    let (bytes, shape) = reader.finish()?;
    assert_eq!(rt; bytes.len(), 7);
    assert_eq!(rt; shape.rows().len(), 3);
    let mut again = Reader::with_lists(&Paths, bytes, shape);
    assert!(rt; feed(&mut again, b"_TIC0hE").is_ok());
    assert!(rt; feed(&mut again, b"").is_ok());
    assert!(rt; again.ready());
    let (_bytes, mut other) = again.finish()?;
    assert!(rt; other.rows().len() > 3);
    read_into(&mut other, &Paths, b"_TC0")?;
    assert_eq!(rt; other.rows().len(), 3);
    Ok(())
}
