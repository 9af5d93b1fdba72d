//! Tests each function over URIs once. The stories test each fault and each answer.
use numbers::Tn;
use telnp::{TelFault, TelUri};

// The first parameter's name and value, whether `npdi` is a parameter, and the number.
type Parts = (&'static str, Option<&'static str>, bool, Option<Tn>);

fn parts_of(text: &'static str) -> Option<Parts> {
    let uri = TelUri::read(text).ok()?;
    let mut parameters = uri.parameters();
    let first = parameters.next()?;
    Some((first.name, first.value, uri.has_npdi(), uri.tn()))
}

#[test]
fn uris_are_read(rt: HostRuntime) {
    let parts = parts_of("tel:+1-(202).533-1234;Ext=%41;npdi");
    let number = Tn::read("2025331234");
    assert_eq!(rt; parts, Some(("Ext", Some("%41"), true, number)));
    assert!(rt; number.is_some() && TelFault::TooLong.name() == "too_long");
}
