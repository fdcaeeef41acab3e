//! Lists by numbers of 32 bits, where a number that names nothing ends the guess.
use crate::stop::Stop;

/// The item at a place.
pub fn at<T: Copy>(items: &[T], place: u32) -> Result<T, Stop> {
    match items.get(place as usize) {
        Some(item) => Ok(*item),
        None => Err(Stop::GivesUp),
    }
}

/// Writes the item at a place.
pub fn put<T: Copy>(items: &mut [T], place: u32, item: T) -> Result<(), Stop> {
    match items.get_mut(place as usize) {
        Some(slot) => {
            *slot = item;
            Ok(())
        }
        None => Err(Stop::GivesUp),
    }
}

/// A length as a number.
pub fn number_of(length: usize) -> Result<u32, Stop> {
    match u32::try_from(length) {
        Ok(number) => Ok(number),
        Err(_) => Err(Stop::GivesUp),
    }
}

/// A part of a list, by the places of its first item and after its last one.
#[derive(Clone, Copy, Debug, PartialEq, Eq)]
pub struct Span {
    pub start: u32,
    pub end: u32,
}

/// The items of a part of a list; none where it isn't there.
pub fn within<T>(items: &[T], span: Span) -> &[T] {
    match items.get(span.start as usize..span.end as usize) {
        Some(part) => part,
        None => &[],
    }
}
