//! A flag for each leaf.

ghost use Rattle.std.specs.Prelude.{◌≡◌, ◌&&◌, ◌||◌, nat_eq, nat_lt, if◌then◌else◌};
ghost use Rattle.fir_meaning.specs.working.TermReads.{is_among};
ghost use Rattle.fir_driven.specs.working.Covering.{depth_in, flag_at};
ghost use Rattle.fir_driven.specs.working.FlagChanges.{FlagsBecome};

/// Whether the leaf is flagged.
pub fn is_flagged(flags: &[bool], leaf: usize) -> bool
    ensures { result ≡ flag_at flags.now leaf }
{
    leaf < flags.len() && flags[leaf]
}

/// Flags the leaf, or takes its flag away.
pub fn set_flag(flags: &mut Vec<bool>, leaf: usize, flag: bool)
    ensures { FlagsBecome flags.old.items flags.new.items (λ x was. if nat_eq leaf x then flag else was) }
{
    if leaf < flags.len() {
        flags[leaf] = flag;
    }
}

/// Flags the leaves, or takes their flags away.
pub fn set_flags(flags: &mut Vec<bool>, leaves: &[usize], flag: bool)
    ensures { FlagsBecome flags.old.items flags.new.items (λ x was. if is_among leaves.now x then flag else was) }
{
    for leaf in leaves {
        set_flag(flags, *leaf, flag);
    }
}

/// Flags those of the leaves that are declared within more than so many whens.
pub fn flag_inner(flags: &mut Vec<bool>, leaves: &[usize], depths: &[usize], depth: usize)
    ensures { FlagsBecome flags.old.items flags.new.items (λ x was. was || (is_among leaves.now x && nat_lt depth (depth_in depths.now x))) }
{
    for leaf in leaves {
        if depth_of(depths, *leaf) > depth {
            set_flag(flags, *leaf, true);
        }
    }
}

/// How many whens stand round the declaration of the leaf.
pub fn depth_of(depths: &[usize], leaf: usize) -> usize
    ensures { result ≡ depth_in depths.now leaf }
{
    if leaf < depths.len() { depths[leaf] } else { 0 }
}
