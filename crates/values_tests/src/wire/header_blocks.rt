//! Blocks of headers, as `read_headers` reads them.

use crate::tables::{printed, says};
use crate::wire::block_word;
use crate::words::word;
use js_base::OutOfMemory;
use js_link_wire::{HeaderBlock, HeadersDamage, HeadersError, read_headers};
use std::alloc::Global;

/// A block, and what it says: a status, a description and the headers.
const BLOCKS: &[(&str, &str)] = &[
    (
        "NATS/1.0\r\nFoodGroup: vegetable\r\n\r\n",
        "none none FoodGroup=vegetable;",
    ),
    (
        "NATS/1.0\r\nBREAKFAST: donut\r\nBREAKFAST: eggs\r\n\r\n",
        "none none BREAKFAST=donut;BREAKFAST=eggs;",
    ),
    ("NATS/1.0\r\nA:b: c\r\nB:\r\n\r\n", "none none A=b: c;B=;"),
    ("NATS/1.0\r\n\r\n", "none none "),
    ("NATS/1.0 503\r\n\r\n", "503 none "),
    ("NATS/1.0 404 No Messages\r\n\r\n", "404 No Messages "),
    (
        "NATS/1.0 100 Idle Heartbeat\r\nNats-Last-Consumer: 5\r\nNats-Last-Stream: 7\r\n\r\n",
        "100 Idle Heartbeat Nats-Last-Consumer=5;Nats-Last-Stream=7;",
    ),
    ("NATS/2.0\r\n\r\n", "no version"),
    ("NATS/1.0 50\r\n\r\n", "bad status"),
    ("NATS/1.0 5033\r\n\r\n", "bad status"),
    ("NATS/1.0 4O4 No Messages\r\n\r\n", "bad status"),
    ("NATS/1.0\r\nBar: Baz\n\r\n", "no carriage return"),
    ("NATS/1.0\r\nBar Baz\r\n\r\n", "no colon"),
    ("NATS/1.0", "cut short"),
    ("NATS/1.0\r\nBar: Baz\r\n", "cut short"),
    ("NATS/1.0\r\nBar: Baz\r\n\r\nHello", "bytes behind the end"),
];

fn damage_text(damage: HeadersDamage) -> &'static str {
    match damage {
        HeadersDamage::NoVersion => "no version",
        HeadersDamage::BadStatus => "bad status",
        HeadersDamage::BareLineFeed => "no carriage return",
        HeadersDamage::NoColon => "no colon",
        HeadersDamage::NotText => "no text",
        HeadersDamage::CutShort => "cut short",
        HeadersDamage::Trailing => "bytes behind the end",
    }
}

fn owned_word(alloc: Global, block: HeaderBlock) -> Result<String, OutOfMemory> {
    let said = block_word(
        alloc,
        block.status,
        &block.description,
        Some(&block.headers),
    );
    drop(block);
    said
}

// What a block says, or what is wrong with it.
fn read(alloc: Global, bytes: &[u8]) -> Result<String, OutOfMemory> {
    match read_headers(alloc, bytes) {
        Ok(block) => owned_word(alloc, block),
        Err(HeadersError::Damaged(damage)) => word(alloc, damage_text(damage)),
        Err(HeadersError::OutOfMemory) => Err(OutOfMemory),
    }
}

#[test]
fn blocks_of_headers_are_read(rt: HostRuntime) {
    for &(text, wanted) in BLOCKS {
        says(&rt, text, read(rt.alloc(), text.as_bytes()), wanted);
    }
    let found = read(rt.alloc(), b"NATS/1.0\r\nBar: \xff\r\n\r\n");
    says(&rt, "bytes", found, "no text");
    let memory = printed(rt.alloc(), HeadersError::OutOfMemory);
    says(&rt, "memory", memory, "out of memory");
}
