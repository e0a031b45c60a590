// The notation of cases: what the words of a line stand for.

use crate::stop::Stop;
use std::alloc::Global;
use std::num::ParseIntError;
use std::str::FromStr;

/// The number that a word spells in decimal.
pub fn number<N: FromStr<Err = ParseIntError>>(word: &str) -> Result<N, Stop> {
    match word.parse() {
        Ok(number) => Ok(number),
        Err(_) => Err(Stop::Unreadable),
    }
}

/// The switch that a word spells: `0` or `1`.
pub fn switch(word: &str) -> Result<bool, Stop> {
    match word {
        "0" => Ok(false),
        "1" => Ok(true),
        _ => Err(Stop::Unreadable),
    }
}

// The bytes of hexadecimal digits.
fn digits(alloc: Global, text: &str) -> Result<Vec<u8>, Stop> {
    match hex::decode(alloc, text) {
        Ok(bytes) => Ok(bytes),
        Err(_) => Err(Stop::Unreadable),
    }
}

// The value `times` times, behind those that are there.
fn repeat<T: Copy + Drop>(list: &mut Vec<T>, value: T, times: &str) -> Result<(), Stop> {
    for _ in 0..number::<u32>(times)? {
        list.push(value)?;
    }
    Ok(())
}

fn push_bytes(alloc: Global, list: &mut Vec<u8>, piece: &str) -> Result<(), Stop> {
    match piece.split_once('*') {
        None => list.extend_from_slice(digits(alloc, piece)?.as_slice())?,
        Some((byte, times)) => match digits(alloc, byte)?.as_slice() {
            [byte] => repeat(list, *byte, times)?,
            _ => return Err(Stop::Unreadable),
        },
    }
    Ok(())
}

/// The bytes that a word spells: pieces of hexadecimal digits joined by `.`, or of one byte and how often it comes, as
/// `00*764`. The empty list is `-`.
pub fn bytes(alloc: Global, word: &str) -> Result<Vec<u8>, Stop> {
    let mut list = Vec::new(alloc);
    if word == "-" {
        return Ok(list);
    }
    for piece in word.split('.') {
        push_bytes(alloc, &mut list, piece)?;
    }
    Ok(list)
}

/// The text whose bytes in UTF-8 a word spells.
pub fn text(alloc: Global, word: &str) -> Result<String, Stop> {
    match String::from_utf8(bytes(alloc, word)?) {
        Ok(text) => Ok(text),
        Err(_) => Err(Stop::Unreadable),
    }
}

/// The texts of words.
pub fn texts(alloc: Global, words: &[&str]) -> Result<Vec<String>, Stop> {
    let mut texts = Vec::new(alloc);
    for word in words {
        texts.push(text(alloc, word)?)?;
    }
    Ok(texts)
}

fn push_numbers<N: FromStr<Err = ParseIntError> + Copy + Drop>(
    list: &mut Vec<N>,
    piece: &str,
) -> Result<(), Stop> {
    match piece.split_once('*') {
        None => list.push(number(piece)?)?,
        Some((value, times)) => repeat(list, number(value)?, times)?,
    }
    Ok(())
}

/// The numbers that a word spells: decimal numbers joined by `,`, or one and how often it comes, as `7*100`. The empty list
/// is `-`.
pub fn numbers<N: FromStr<Err = ParseIntError> + Copy + Drop>(
    alloc: Global,
    word: &str,
) -> Result<Vec<N>, Stop> {
    let mut list = Vec::new(alloc);
    if word == "-" {
        return Ok(list);
    }
    for piece in word.split(',') {
        push_numbers(&mut list, piece)?;
    }
    Ok(list)
}
