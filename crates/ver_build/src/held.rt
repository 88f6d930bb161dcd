//! Where a value is in the tree.

ghost use Rattle.std.specs.Prelude.{◌≡◌, IfOk, option_map};
ghost use Rattle.ver_build.specs.working.Places.{bit_net};
ghost use Rattle.ver_build.specs.working.Held.{no_bits, whole_net, cut, fit_source, fit, own_held, held_literal};

use fir_base::{MemoryOut, Name};
use fir_bits::{Bits, Num};
use std::alloc::Global;

/// The low bits of a net.
#[derive(Drop)]
pub struct Part {
    /// The net's name.
    pub name: Name,
    /// Its width in bits.
    pub own: u32,
    /// How many of its low bits count.
    pub kept: u32,
}

/// Where the bits of a value come from.
#[derive(Drop)]
pub enum Source {
    /// A number of the value's width.
    Number(Bits),
    /// The low bits of a net, extended to the value's width.
    Net(Part),
}

/// A value in the tree: whether it is an SInt, by whose sign it is extended then, its width in bits, and where
/// its bits come from.
#[derive(Drop)]
pub struct Held {
    pub signed: bool,
    pub width: u32,
    pub source: Source,
}

impl Held {
    /// The value of no bits.
    pub fn no_bits() -> Held
        ensures { result ≡ no_bits }
    {
        Held {
            signed: false,
            width: 0,
            source: Source::Number(Bits::of(0, 0)),
        }
    }

    /// All bits of the net of that name and width.
    pub fn whole(name: Name, signed: bool, width: u32) -> Held
        ensures { result ≡ whole_net name signed width }
    {
        Held {
            signed,
            width,
            source: Source::Net(Part {
                name,
                own: width,
                kept: width,
            }),
        }
    }

    /// A copy.
    pub fn copy(&self, alloc: Global) -> Result<Held, MemoryOut>
        ensures { IfOk result (λ h. h ≡ self.now) }
    {
        Ok(Held {
            signed: self.signed,
            width: self.width,
            source: self.source.copy(alloc)?,
        })
    }

    /// The value at a width: extended by its own sign, or cut to its low bits.
    pub fn fit(self, width: u32) -> Held
        ensures { result ≡ fit width self }
    {
        Held {
            signed: self.signed,
            width,
            source: self.source.fit(self.signed, width),
        }
    }
}

impl Source {
    /// The net of one bit that a value is all of.
    pub fn bit_net(&self) -> Option<&Name>
        ensures { option_map (λ n. n.now) result ≡ bit_net self.now }
    {
        match self {
            Source::Net(part) if part.own == 1 && part.kept == 1 => Some(&part.name),
            _ => None,
        }
    }

    fn copy(&self, alloc: Global) -> Result<Source, MemoryOut>
        ensures { IfOk result (λ s. s ≡ self.now) }
    {
        match self {
            Source::Number(value) => Ok(Source::Number(*value)),
            Source::Net(part) => Ok(Source::Net(Part {
                name: part.name.copy(alloc)?,
                own: part.own,
                kept: part.kept,
            })),
        }
    }

    fn fit(self, signed: bool, width: u32) -> Source
        ensures { result ≡ fit_source signed width self }
    {
        match self {
            Source::Number(value) => Source::Number(value.fit(signed, width.min(128))),
            Source::Net(part) => {
                if width == 0 {
                    Source::Number(Bits::of(0, 0))
                } else {
                    Source::Net(part.cut(width))
                }
            }
        }
    }
}

impl Part {
    /// The part where no more than so many bits count.
    fn cut(self, width: u32) -> Part
        ensures { result ≡ cut width self }
    {
        let kept = self.kept.min(width);
        Part {
            name: self.name,
            own: self.own,
            kept,
        }
    }
}

/// Where a value is that has a net of that name, where it has bits.
pub fn own_held(
    alloc: Global,
    signed: bool,
    width: u32,
    name: Option<&Name>,
) -> Result<Held, MemoryOut>
    ensures { IfOk result (λ h. h ≡ own_held signed width (option_map (λ n. n.now) name.entry)) }
{
    match name {
        Some(name) => Ok(Held::whole(name.copy(alloc)?, signed, width)),
        None => Ok(Held {
            signed,
            width,
            source: Source::Number(Bits::of(0, 0)),
        }),
    }
}

/// The value of a literal.
pub fn held_literal(v: &Num) -> Held
    ensures { result ≡ held_literal v.now }
{
    Held {
        signed: v.signed,
        width: v.value.width(),
        source: Source::Number(v.value),
    }
}
