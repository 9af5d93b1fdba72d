//! JSON objects without arrays and objects in them, read without a tree.
ghost use Rattle.std.specs.Prelude.{◌≡◌, ◌<◌, length, ◌++◌, ◌∷◌, [], true, Some, option_map, map, IfOk, IfSome, OnOk};
ghost use Rattle.json.specs.Reads.{token_of};
ghost use Rattle.serde_json.specs.Find.{get as get_in};
ghost use Rattle.serde_json.specs.Read.{read as read_text};
ghost use Rattle.serde_json.specs.Data.{no_members};
ghost use Rattle.std.specs.List.{list_all};
ghost use Rattle.json_api.specs.Forms.{json_of, only_keys};
ghost use Rattle.json_api.specs.Flat.{scalar_data, flat_data, is_among, members_upon, read_object, IsScalar};

use crate::fields::{Fields, is_one_of};
use crate::scan::read_members;
use arrayvec::ArrayVec;
use serde_json::Value;

/// The value under a key: null, a Boolean, a whole number or a text.
#[derive(Clone, Copy, Debug)]
pub enum Scalar<'a> {
    Null,
    Flag(bool),
    Whole(u64),
    Text(&'a str),
}

/// A key and its value.
#[derive(Clone, Copy, Debug)]
pub struct Member<'a> {
    pub key: &'a str,
    pub value: Scalar<'a>,
}

impl Default for Member<'_> {
    ghost is_default = { λ _. Rattle.std.specs.Prelude.⊤ };

    fn default() -> Self {
        Member {
            key: "",
            value: Scalar::Null,
        }
    }
}

// Only the body that sets windows has more keys.
pub(crate) const MOST_MEMBERS: usize = 6;

/// The members of an object, in the order of the body.
#[derive(Drop)]
pub struct Flat<'a> {
    pub(crate) members: ArrayVec<Member<'a>, MOST_MEMBERS>,
}

impl<'a> Flat<'a> {
    /// Creates a value without members.
    pub fn new() -> Flat<'a>
        ensures { result.members.items ≡ [] }
    {
        Flat {
            members: ArrayVec::new(),
        }
    }

    /// Reads the object in `body`, instead of the members held so far. Returns whether it could.
    /// Allocates nothing; texts are borrowed from the body.
    ///
    /// `false` does not imply that the body is invalid. If plainly written, every form of a body is
    /// read, except donations and windows. Not read are:
    /// - objects with arrays or objects in them, without members, or with more than six;
    /// - escapes and non-ASCII characters in texts;
    /// - numbers with a sign, a fraction, an exponent or more than 19 digits;
    /// - white space other than spaces and line feeds, before a colon or a comma, or around the
    ///   object.
    pub fn read(&mut self, body: &'a [u8]) -> bool
        ensures { result ≡ true → json_of body.now ≡ Some (flat_data self.new.members.items) }
    {
        self.members.clear();
        read_members(body, &mut self.members).is_some()
    }

    // Returns the value under `key`, the last one if there are several.
    fn get(&self, key: &str) -> Option<Scalar<'a>>
        ensures { option_map scalar_data result
            ≡ get_in key.now (flat_data self.now.members.items) }
    {
        let members = self.members.as_slice();
        let mut left = members.len();
        'members: while left > 0 {
            left -= 1;
            if members[left].key == key {
                return Some(members[left].value);
            }
        }
        None
    }
}

// Returns the index of `key` in `keys` at or after `first`.
fn place_from(first: usize, key: &str, keys: &[&str]) -> Option<usize>
    ensures { IfSome result (λ place. (place < length keys.now)
        × (is_among keys.now key.now ≡ true)) }
{
    let mut place = first;
    'keys: while place < keys.len() {
        if key == keys[place] {
            return Some(place);
        }
        place += 1;
    }
    None
}

// Returns whether each member has one of the keys `allowed`. Members usually come in the order of
// the keys, so the search for each starts after the one before.
fn are_known(members: &[Member<'_>], allowed: &[&str]) -> bool
    ensures { result ≡ list_all (λ m. is_among allowed.now m.key.now) members.now }
{
    let mut next = 0;
    'members: for member in members {
        match place_from(next, member.key, allowed) {
            Some(place) => next = place + 1,
            None if is_one_of(member.key, allowed) => {}
            None => return false,
        }
    }
    true
}

impl Fields for Flat<'_> {
    ghost value = { λ flat. flat_data flat.members.items };

    #[tactic(auto, unfolding(crate::specs::Forms::whole))]
    fn whole(&self, key: &str) -> Option<u64> {
        match self.get(key)? {
            Scalar::Whole(number) if number < 1 << 40 => Some(number),
            _ => None,
        }
    }

    #[tactic(auto, unfolding(crate::specs::Forms::text))]
    fn text(&self, key: &str) -> Option<&str> {
        match self.get(key)? {
            Scalar::Text(text) => Some(text),
            _ => None,
        }
    }

    #[tactic(auto, unfolding(crate::specs::Forms::flag))]
    fn flag(&self, key: &str) -> Option<bool> {
        match self.get(key)? {
            Scalar::Flag(flag) => Some(flag),
            _ => None,
        }
    }

    #[tactic(auto, using(crate::proofs::FlatLemmas::no_items))]
    fn items(&self, _key: &str) -> Option<&[Value]> {
        None
    }

    fn is_left_out(&self, key: &str) -> bool {
        matches!(self.get(key), None | Some(Scalar::Null))
    }

    fn has_only(&self, allowed: &[&str]) -> bool {
        are_known(self.members.as_slice(), allowed)
    }
}
