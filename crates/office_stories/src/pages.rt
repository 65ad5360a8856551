//! A database file as rows of text: what is in its pages of 4,096 bytes.
use crate::disks::Image;
use crate::failures::{failure, must};
use crate::repeating::number;
use office_proof::digest_of;
use std::alloc::Global;
use std::test::Fail;

/// The bytes of a page.
const PAGE: usize = 4_096;

/// Where a page begins.
fn start_of(page: &str) -> Result<usize, Fail> {
    Ok(
        (number(page)? as usize)
            .saturating_sub(1)
            .saturating_mul(PAGE),
    )
}

/// Puts bytes at a place of a page.
fn put_bytes(
    alloc: Global,
    image: &mut Image,
    page: &str,
    place: &str,
    hex: &str,
) -> Result<(), Fail> {
    let at = start_of(page)?.saturating_add(number(place)? as usize);
    match hex::decode(alloc, hex) {
        Ok(bytes) => image.put(alloc, at, bytes.as_slice()),
        Err(_) => Err(failure("no bytes", hex)),
    }
}

/// Puts the bytes of one page into another.
fn put_like(alloc: Global, image: &mut Image, page: &str, like: &str) -> Result<(), Fail> {
    let copy = image.copy(alloc)?;
    let Some((_, rest)) = copy.db().split_at_checked(start_of(like)?) else {
        return Err(failure("no such page", like));
    };
    let (bytes, _) = rest.split_at(PAGE.min(rest.len()));
    image.put(alloc, start_of(page)?, bytes)
}

/// The file must have that digest.
fn report_digest(alloc: Global, image: &Image, digest: &str) -> Result<(), Fail> {
    let reported = hex::encode(alloc, digest_of(image.db()))?;
    must(reported.as_str() == digest, "the file", reported.as_str())
}

/// The page must have that digest.
fn report_page(alloc: Global, image: &Image, page: &str, digest: &str) -> Result<(), Fail> {
    let Some((_, rest)) = image.db().split_at_checked(start_of(page)?) else {
        return Err(failure("no such page", page));
    };
    let (bytes, _) = rest.split_at(PAGE.min(rest.len()));
    let reported = hex::encode(alloc, digest_of(bytes))?;
    must(reported.as_str() == digest, page, reported.as_str())
}

/// Does what a row says: `2 14 0a0b` puts two bytes at place 14 of page 2, `3 like 2` makes page 3
/// what page 2 is, `3 digest` reports the digest of page 3, and `digest` that of the whole.
pub(crate) fn put_row(alloc: Global, image: &mut Image, row: &str) -> Result<(), Fail> {
    match row.split_once(' ') {
        Some(("digest", digest)) => report_digest(alloc, image, digest),
        Some((page, rest)) => match rest.split_once(' ') {
            Some(("like", like)) => put_like(alloc, image, page, like),
            Some(("digest", digest)) => report_page(alloc, image, page, digest),
            Some((place, hex)) => put_bytes(alloc, image, page, place, hex),
            None => Err(failure("no such row", row)),
        },
        None => Err(failure("no such row", row)),
    }
}
