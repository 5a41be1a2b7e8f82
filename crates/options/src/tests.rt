//! Examples, worked out by hand.
use crate::options::{OptionFault, Options};
use crate::reading::read_options;
use std::test::Fail;

/// The words of a text.
fn words_of(rt: &HostRuntime, text: &str) -> Result<Vec<String>, Fail> {
    let mut words = Vec::new(rt.alloc());
    for word in text.split_whitespace() {
        words.push(String::from_str(rt.alloc(), word)?)?;
    }
    Ok(words)
}

/// What the words of a text ask for.
fn asked(rt: &HostRuntime, text: &str) -> Result<Result<Options, OptionFault>, Fail> {
    Ok(read_options(words_of(rt, text)?.as_slice()))
}

#[test]
fn no_word_leaves_the_defaults(rt: HostRuntime) -> Result<(), Fail> {
    assert_eq!(rt; asked(&rt, "")?, Ok(Options::default()));
    Ok(())
}

#[test]
fn words_are_told_by_their_place(rt: HostRuntime) -> Result<(), Fail> {
    let options = Options {
        sheet: Some(0),
        image: Some(2),
        input: Some(5),
        clock: true,
        ..Options::default()
    };
    assert_eq!(rt;
        asked(&rt, "a.sheet --image b --clock --input --save")?,
        Ok(options)
    );
    Ok(())
}

#[test]
fn a_place_is_among_the_words(rt: HostRuntime) -> Result<(), Fail> {
    let words = words_of(&rt, "--save a --image b")?;
    let Ok(options) = read_options(words.as_slice()) else {
        return Err(Fail::new("the words are refused"));
    };
    let Some(place) = options.image else {
        return Err(Fail::new("no image is told"));
    };
    assert_eq!(rt; words[place].as_str(), "b");
    Ok(())
}

#[test]
fn the_last_mention_counts(rt: HostRuntime) -> Result<(), Fail> {
    let options = Options {
        from: Some(0xFFF),
        cycles: Some(999_999_999_999_999_999),
        wait: 65535,
        paper: 1_000_000,
        examine: Some((0x10, 0x1F)),
        ..Options::default()
    };
    assert_eq!(rt;
        asked(
            &rt,
            "--from 1 --wait 65535 --examine A --cycles 999999999999999999 --paper 1000000 --examine 10-1F --from 0FFF",
        )?,
        Ok(options)
    );
    Ok(())
}

#[test]
fn one_address_is_both_ends(rt: HostRuntime) -> Result<(), Fail> {
    let options = Options {
        examine: Some((0xABC, 0xABC)),
        ..Options::default()
    };
    assert_eq!(rt; asked(&rt, "--examine ABC")?, Ok(options));
    Ok(())
}

#[test]
fn a_refusal_names_its_word(rt: HostRuntime) -> Result<(), Fail> {
    let cases = [
        ("a -x", OptionFault::Unknown(1)),
        ("a b", OptionFault::SecondSheet(1)),
        ("--both --save", OptionFault::NoValue(1)),
        ("--from 1000", OptionFault::BadValue(1)),
        ("--wait 65536", OptionFault::BadValue(1)),
        ("--paper +1", OptionFault::BadValue(1)),
        ("--examine 1-2-3", OptionFault::BadValue(1)),
        ("--clocks 1234567890123456789", OptionFault::BadValue(1)),
    ];
    for (text, fault) in cases {
        assert_eq!(rt; asked(&rt, text)?, Err(fault), "{}", text);
    }
    Ok(())
}
