// How many words a type has, and where members stand.
ghost use Rattle.std.specs.Prelude.{◌≡◌, ◌<◌, ◌^◌, ◌-◌, ◌%◌, min, length, map, option_map, is_some, slice_get, false, OnOk, OnErr};
ghost use Rattle.c_types.specs.View.{ctype, layout, named};
ghost use Rattle.c_types.specs.Sizes.{no_layout, next_offset, size_with, with_member, capped, layout_size, words_of, IsNumbered, member_named, offset_of};

use crate::ctype::CType;
use indexmap::IndexMap;
use kit_base::Name;
use std::alloc::{AllocError, Global};

/// A member of a structure or union: its first word counted from the structure's, and its type.
#[derive(Drop)]
pub struct Member {
    pub offset: u32,
    pub ty: CType,
}

/// A structure or union: its members by their names, in their order, and its number of words.
#[derive(Drop)]
pub struct Layout {
    is_union: bool,
    members: IndexMap<Name, Member>,
    size: u32,
}

impl Layout {
    /// A structure, or a union, without members, of no words.
    pub fn new(alloc: Global, is_union: bool) -> Layout
        ensures none { layout result ≡ no_layout is_union }
    {
        Layout {
            is_union,
            members: IndexMap::new(alloc),
            size: 0,
        }
    }

    /// Whether it is a union.
    pub fn is_union(&self) -> bool
        ensures union { result ≡ (layout self.now).is_union }
    {
        self.is_union
    }

    /// Its number of words.
    pub fn size(&self) -> u32
        ensures size { result ≡ (layout self.now).size }
    {
        self.size
    }

    /// How many members there are.
    pub fn count(&self) -> usize
        ensures count { result ≡ length (layout self.now).members }
    {
        self.members.len()
    }

    /// The member of that name.
    pub fn member(&self, name: &Name) -> Option<&Member>
        ensures found { option_map (λ m. named name.now m.now) result ≡ member_named name.now (layout self.now).members }
    {
        self.members.get(name)
    }

    /// The member at that index, with its name.
    pub fn member_at(&self, index: usize) -> Option<(&[u8], &Member)>
        ensures member { option_map (λ e. named e.0.now e.1.now) result ≡ slice_get (layout self.now).members index }
    {
        match self.members.get_index(index) {
            Some((name, member)) => Some((name.bytes(), member)),
            None => None,
        }
    }

    /// The type of the member at that index.
    pub fn member_type(&self, index: usize) -> Option<&CType>
        ensures ty { option_map (λ t. ctype t.now) result ≡ option_map (λ m. m.ty) (slice_get (layout self.now).members index) }
    {
        match self.members.get_index(index) {
            Some((_, member)) => Some(&member.ty),
            None => None,
        }
    }

    fn next_offset(&self) -> u32
        ensures offset { result ≡ next_offset (layout self.now) }
    {
        if self.is_union { 0 } else { self.size }
    }

    fn size_with(&self, words: u32) -> u32
        ensures size { result ≡ min (size_with (layout self.now) words) (2 ^ 32 - 1) }
    {
        if self.is_union {
            self.size.max(words)
        } else {
            self.size.saturating_add(words)
        }
    }

    /// Adds a member of size `words` under a name that no member has yet. It goes last, behind those before it in a structure, at word 0 in
    /// a union. More than 2^32 - 1 words are counted as 2^32 - 1. The error is want of memory, and then the layout stays.
    pub fn add(&mut self, name: Name, ty: CType, words: u32) -> Result<(), AllocError>
        requires new { is_some (member_named name (layout self.old).members) ≡ false }
        ensures added { OnOk result (layout self.new ≡ capped (with_member (layout self.old) name (ctype ty) words)) }
        ensures refused { OnErr result (layout self.new ≡ layout self.old) }
    {
        let offset = self.next_offset();
        let size = self.size_with(words);
        self.members.insert(name, Member { offset, ty })?;
        self.size = size;
        Ok(())
    }
}

/// The size of the layout of that number; 0 where there is none.
fn layout_size(layouts: &[Layout], number: u32) -> u32
    ensures size { result ≡ layout_size (map layout layouts.now) number }
{
    match layouts.get(number as usize) {
        Some(found) => found.size(),
        None => 0,
    }
}

/// The words of a type, which wrap at 2^32.
pub fn wrapped_size(layouts: &[Layout], ty: &CType) -> u32
    ensures size { result ≡ words_of (map layout layouts.now) (ctype ty.now) % 2 ^ 32 }
{
    let mut at = ty;
    let mut times = 1u32;
    loop {
        match at {
            CType::Void => return 0,
            CType::Int | CType::Bool | CType::Enum(_) | CType::Pointer(_) => return times,
            CType::Struct(number) => return layout_size(layouts, *number).wrapping_mul(times),
            CType::Union(number) => return layout_size(layouts, *number).wrapping_mul(times),
            CType::Array(of, length) => {
                times = length.wrapping_mul(times);
                at = of.ty();
            }
        }
    }
}

/// The number of words of a type: one of a scalar, the layout's of a structure or union, the product of an array.
pub fn size_of(layouts: &[Layout], ty: &CType) -> u32
    requires numbered { IsNumbered (map layout layouts.now) (ctype ty.now) }
    requires fits { words_of (map layout layouts.now) (ctype ty.now) < 2 ^ 32 }
    ensures size { result ≡ words_of (map layout layouts.now) (ctype ty.now) }
{
    wrapped_size(layouts, ty)
}

/// Where the member of that name begins; none where no member has it.
pub fn member_offset(structure: &Layout, name: &str) -> Option<u32>
    ensures offset { result ≡ offset_of (layout structure.now).members name.now }
{
    for (key, member) in structure.members.iter() {
        if name.as_bytes() == key.bytes() {
            return Some(member.offset);
        }
    }
    None
}
