ghost use Rattle.std.specs.Prelude.{◌≡◌, ℕ, ◌/◌, ◌%◌, ◌^◌, ◌<◌, ◌≤◌, List, replicate, ◌==◌, ◌≢◌, bit_or, slice_index};
ghost use Rattle.level.specs.Element.{Element, coordinate};
ghost use Rattle.level.specs.Bytes.{sixteen, from_sixteen, Octets};
ghost use Rattle.multilinear.specs.Cells.{cell, gather};
ghost use Rattle.coordinates.specs.SetPlaces.{NextSet};

use level::level::Level;

// The first 128 coordinates of an element: coordinate u is bit u mod 8, least first, of byte u div 8. That a coordinate is below 128 stands
// at each method: a type of such numbers would only move the same test to where one is made.
#[derive(Clone, Copy, Debug, PartialEq, Eq)]
pub struct Coefficients {
    bytes: [u8; 16],
    ghost octets: { Octets bytes },
}

// Bit `at` of a byte, as a truth: `coordinate` reads a bit of a number of 128, as a number.
fn bit(byte: u8, at: usize) -> bool
    requires { at < 8 }
    ensures { result ≡ (byte / 2 ^ at % 2 == 1) }
{
    (byte >> at) % 2 == 1
}

// The byte with bit `at` set, whatever bits it has: `with_coordinate` asks that none from there on is set.
fn with_bit(byte: u8, at: usize) -> u8
    requires { at < 8 }
    ensures { result ≡ bit_or byte (2 ^ at) }
{
    byte | (1 << at)
}

// The coordinates of an element.
impl<L: Level> From<L> for Coefficients {
    ghost from_gives = { λ value coefficients. coefficients.bytes ≡ sixteen (L.means value) };

    fn from(value: L) -> Coefficients {
        Coefficients {
            bytes: value.to_bytes(),
        }
    }
}

impl Coefficients {
    // No coordinate set.
    pub fn zero() -> Coefficients
        ensures { result.bytes ≡ replicate 16 0 }
    {
        Coefficients { bytes: [0; 16] }
    }

    // Whether a coordinate is set.
    pub fn get(&self, index: usize) -> bool
        requires { index < 128 }
        ensures { result ≡ (cell self.now.bytes index == 1) }
    {
        bit(self.bytes[index / 8], index % 8)
    }

    // Sets a coordinate.
    pub fn set(&mut self, index: usize)
        requires { index < 128 }
        ensures chosen { cell self.new.bytes index ≡ 1 }
        ensures others { (u : ℕ) → (u ≢ index) → cell self.new.bytes u ≡ cell self.old.bytes u }
    {
        self.bytes[index / 8] = with_bit(self.bytes[index / 8], index % 8);
    }

    // The coordinates 8j to 8j + 7 as a byte, the first at its least bit.
    pub fn byte(&self, j: usize) -> u8
        requires { j < 16 }
        ensures { result ≡ slice_index self.now.bytes j }
    {
        self.bytes[j]
    }

    // The element with these coordinates. By a name, since no `From` can be written for every level.
    pub fn element<L: Level>(&self) -> L
        ensures { L.means result ≡ from_sixteen L.Level.log self.now.bytes }
    {
        L::from_bytes(self.bytes)
    }
}

// The least set place of a byte at or past a place, the least bit at place 0, and 8 where none is left: so the set places of a byte come one
// after the other, upward.
pub fn next_set(byte: u8, from: usize) -> usize
    requires { from ≤ 8 }
    ensures { NextSet byte from result }
{
    let mut place = from;
    while place < 8 && !bit(byte, place) {
        place += 1;
    }
    place
}

// Coordinates are the cells of their bytes: those of zero, of an element, and of the element that bytes make.
pub fn coordinates_stand()
    ensures none { (u : ℕ) → cell (replicate 16 0) u ≡ 0 }
    ensures shown { (k : ℕ) (x : Element k) (u : ℕ) → u < 128 → cell (sixteen x) u ≡ coordinate x u }
    ensures made { (k : ℕ) (bytes : List ℕ) → Octets bytes → from_sixteen k bytes ≡ gather k (cell bytes) }
{}
