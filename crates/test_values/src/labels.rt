//! Worked lists of pairs and worked texts, as far as no line of a session shows them: a list may name a label twice, and nothing but
//! a stored chunk is read as a canonical name.
use ing_labels::{LabelFault, LabelLimits, Labels, Selector, TextFault};
use std::alloc::Global;
use std::test::Fail;

// One label, whose name and value have one byte at most.
const NARROW: LabelLimits = LabelLimits {
    names: 1,
    name_bytes: 1,
    value_bytes: 1,
};

#[test]
fn refusals_come_in_order(rt: HostRuntime) {
    let bad_name = [("aa", "xx"), ("aa", ""), ("a:b", "")];
    let too_many = [("aa", "xx"), ("b", "y")];
    let long_name = [("aa", ""), ("bb", "xx")];
    let long_value = [("aa", ""), ("b", "é")];
    for (pairs, wanted) in [
        (bad_name.as_slice(), LabelFault::BadName { at: 2 }),
        (&bad_name[..2], LabelFault::TwiceNamed { at: 1 }),
        (&long_name[..1], LabelFault::NoLabels),
        (too_many.as_slice(), LabelFault::TooMany),
        (long_name.as_slice(), LabelFault::NameTooLong { at: 1 }),
        (long_value.as_slice(), LabelFault::ValueTooLong { at: 1 }),
    ] {
        assert_eq!(rt;
            Labels::of_pairs(rt.alloc(), pairs, &NARROW).err(),
            Some(wanted)
        );
    }
}

#[test]
fn faults_say_what_and_where(rt: HostRuntime) -> Result<(), Fail> {
    let label = LabelFault::TwiceNamed { at: 1 };
    let text = TextFault::BadSelector { at: 3 };
    assert_eq!(rt; (label.at(), text.at()), (Some(1), Some(3)));
    assert_eq!(rt;
        format!(in rt.alloc(); "{label}; {text}")?.as_str(),
        "pair 1 has the name of an earlier pair; no selector, from byte 3 on"
    );
    Ok(())
}

#[test]
fn canonical_names_are_read_back(rt: HostRuntime) -> Result<(), Fail> {
    let text = "{Z_=\"{}=,\", _Z9=\"\té€'\", m=\"a\\\"b\\\\c\\nd\"}";
    let labels = Labels::parse_canonical(rt.alloc(), text)?;
    assert_eq!(rt; labels.value("m"), "a\"b\\c\nd");
    assert_eq!(rt; labels.value("n"), "");
    assert_eq!(rt; labels.name(), text);
    Ok(())
}

// The fault of a text that is no canonical name.
fn canonical_fault(alloc: Global, text: &str) -> Option<TextFault> {
    Labels::parse_canonical(alloc, text).err()
}

#[test]
fn other_texts_are_not_canonical(rt: HostRuntime) {
    for (text, at) in [
        ("{b=\"1\", a=\"2\"}", 8),
        ("{b=\"1\", b=\"2\"}", 9),
        ("{bd=\"1\", bc=\"2\"}", 10),
        ("{a=\"\"}", 4),
        ("{a=\"1\"", 6),
        ("{}", 1),
        ("{a=\"1\",b=\"2\"}", 7),
        // A place counts bytes, also where characters of several come before it.
        ("{a=\"é€\", a=\"x\"}", 13),
        ("{a=\"é€\"é", 10),
    ] {
        let wanted = Some(TextFault::NotCanonical { at });
        assert_eq!(rt; canonical_fault(rt.alloc(), text), wanted, "{text}");
    }
}

// Each front of a canonical name ends too early, and so does it as a selector.
#[test]
fn a_front_ends_too_early(rt: HostRuntime) -> Result<(), Fail> {
    let text = "{a=\"é\\\"€\", b=\"\\n\"}";
    for (at, _) in text.char_indices() {
        let front = text.get(..at).ok_or("no front")?;
        let wanted = Some(TextFault::NotCanonical { at });
        assert_eq!(rt; canonical_fault(rt.alloc(), front), wanted);
        let wanted = Some(TextFault::BadSelector { at });
        assert_eq!(rt; Selector::parse(rt.alloc(), front).err(), wanted);
    }
    Ok(())
}

// 64 labels with names of 1024 bytes and values of 2048: 196,928 bytes.
#[test]
fn a_canonical_name_of_the_greatest_size(rt: HostRuntime) -> Result<(), Fail> {
    let name = "n".repeat(rt.alloc(), 1022)?;
    let value = "é".repeat(rt.alloc(), 1024)?;
    let mut text = String::from_str(rt.alloc(), "{")?;
    for number in 10..74u32 {
        let separator = if number == 10 { "" } else { ", " };
        let label = format!(in rt.alloc(); "{separator}{name}{number}=\"{value}\"")?;
        text.push_str(label.as_str())?;
    }
    text.push('}')?;
    assert_eq!(rt; text.len(), 196_928);
    let labels = Labels::parse_canonical(rt.alloc(), text.as_str())?;
    assert_eq!(rt; labels.name(), text.as_str());
    Ok(())
}
