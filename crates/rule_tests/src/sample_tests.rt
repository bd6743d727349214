//! A whole configuration through its reader, and texts as long as a file may be.
use crate::sample_rows::{SHOP, SHOP_PRINTED};
use crate::tests::{expect_made, prints};
use cfg_model::Config;
use rule_lang::Rules;
use std::alloc::Global;
use std::process::Abort;

// Asks what is printed of the rules of each document type.
fn expect_texts(rt: &impl Abort, alloc: Global, config: &Config, rules: &Rules) {
    for (kind, wanted) in &SHOP_PRINTED {
        assert!(rt; prints(alloc, config, rules, *kind, wanted), "{wanted}");
    }
}

// Asks the same of the rules of a configuration, which are accepted.
fn expect_rules(rt: &impl Abort, alloc: Global, config: &Config) {
    match Rules::read(alloc, config) {
        Ok(rules) => expect_texts(rt, alloc, config, &rules),
        Err(_) => panic!(rt; "the rules are refused"),
    }
}

#[test]
fn the_rules_of_a_shop_are_accepted_and_printed(rt: HostRuntime) {
    match Config::read(rt.alloc(), SHOP.as_bytes()) {
        Ok(config) => expect_rules(&rt, rt.alloc(), &config),
        Err(_) => panic!(rt; "the file is refused"),
    }
}

// A statement with a sum of so many terms, and then what is given.
fn long_sum(alloc: Global, terms: usize, last: &str) -> Option<String> {
    let mut text = String::new(alloc);
    text.push_str("receipt goods(item=\"i\"; quantity=0").ok()?;
    for _ in 0..terms {
        text.push_str("+1").ok()?;
    }
    text.push_str(last).ok()?;
    Some(text)
}

#[test]
fn a_text_of_a_mebibyte_is_read(rt: HostRuntime) {
    // 34 bytes in front of the terms, and two for each: 1,048,576 bytes with the last ones
    for (last, wanted) in [(");", "accepted"), ("+;", "fill 1048575 1")] {
        expect_made(&rt, rt.alloc(), long_sum(rt.alloc(), 524_270, last), wanted);
    }
}
