//! Bytes by their names, and what stands for what is wanted.

use crate::act::moments_of;
use std::alloc::Global;
use std::io;
use std::io::{ErrorKind, Write};

/// The digits of a name, by lines of a name and its digits each.
fn digits_of<'a>(texts: &'a str, name: &str) -> Option<&'a str> {
    for line in texts.lines() {
        if let Some((found, digits)) = line.split_once(' ')
            && found == name
        {
            return Some(digits);
        }
    }
    None
}

/// The digits that a word is, or names behind an `@`. A name that nothing has stays as it is.
fn spelt<'a>(texts: &'a str, word: &'a str) -> &'a str {
    match word.strip_prefix("@") {
        Some(name) => digits_of(texts, name).unwrap_or(word),
        None => word,
    }
}

/// Adds a text, as far as there is memory: what is wanted then isn't what is seen.
fn add(text: &mut Vec<u8>, more: &str) {
    let _kept = text.extend_from_slice(more.as_bytes()).is_ok();
}

/// Adds the digits of words that are digits or names.
fn add_digits(texts: &str, words: &str, digits: &mut Vec<u8>) {
    for word in words.split(' ') {
        add(digits, spelt(texts, word));
    }
}

/// The bytes of words that are hex digits, or names behind an `@`.
pub(crate) fn bytes_of(alloc: Global, texts: &str, words: &str) -> io::Result<Vec<u8>> {
    let mut digits = Vec::new(alloc);
    add_digits(texts, words, &mut digits);
    match hex::decode(alloc, str::from_utf8(&digits).unwrap_or("no digits")) {
        Ok(bytes) => Ok(bytes),
        Err(_) => Err(io::Error::from(ErrorKind::InvalidData)),
    }
}

/// The request of a visitor, by its method, its path and its body, if it has one.
pub(crate) fn request_of(alloc: Global, words: &str) -> Vec<u8> {
    let (method, rest) = words.split_once(' ').unwrap_or((words, ""));
    let (path, body) = rest.split_once(' ').unwrap_or((rest, ""));
    let mut request = Vec::new(alloc);
    let _begun = write!(request, "{method} {path} HTTP/1.1\r\nhost: hub\r\n").is_ok();
    if !body.is_empty() {
        let _said = write!(request, "content-length: {}\r\n", body.len()).is_ok();
    }
    add(&mut request, "\r\n");
    add(&mut request, body);
    request
}

/// Adds what a row wants to be seen, at each of its moments.
pub(crate) fn add_wanted(texts: &str, row: &str, wanted: &mut Vec<u8>) {
    let (word, rest) = row.split_once(' ').unwrap_or((row, ""));
    match moments_of(word) {
        Some(moments) => {
            for number in 0..moments.count() {
                let _begun = write!(*wanted, "{} ", moments.at(number)).is_ok();
                add_at(texts, rest, wanted);
            }
        }
        None => add_at(texts, row, wanted),
    }
}

/// Adds what is wanted at one moment, and ends the line.
fn add_at(texts: &str, row: &str, wanted: &mut Vec<u8>) {
    if let Some((front, words)) = sent_in(row) {
        add(wanted, front);
        add(wanted, ": ");
        add_digits(texts, words, wanted);
    } else {
        match row.strip_prefix("told ") {
            Some(answer) => add_answer(answer, wanted),
            None => add(wanted, row),
        }
    }
    add(wanted, "\n");
}

/// What a row says that a peer is sent: what stands before the colon, and the bytes' words.
fn sent_in(row: &str) -> Option<(&str, &str)> {
    let (front, words) = row.split_once(": ")?;
    let (_, number) = front.split_once("to ")?;
    number.parse::<usize>().ok()?;
    Some((front, words))
}

/// Adds what a visitor is told: a status, and behind a colon an object.
fn add_answer(answer: &str, wanted: &mut Vec<u8>) {
    let (status, body) = answer.split_once(": ").unwrap_or((answer, ""));
    let _begun = write!(
        *wanted,
        "told: HTTP/1.1 {status}\\r\\ncontent-type: application/json\\r\\n\
        content-length: {}\\r\\n\\r\\n",
        body.len()
    )
    .is_ok();
    add(wanted, body);
}
