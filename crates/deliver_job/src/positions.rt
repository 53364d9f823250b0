//! The list of positions that a word spells.
ghost use Rattle.std.specs.Prelude.{◌≡◌, ◌≤◌, ◌<◌, ◌^◌, ◌++◌, ◌∷◌, [], ℕ, List, IfSome, Some, None, decimal, length};
ghost use Rattle.deliver_job.specs.declared.items.Item.{Item};
ghost use Rattle.deliver_job.specs.Positions.{IsItem, IsList, item_word, list_word};
ghost use Rattle.deliver_job.specs.Reading.{SpellsItems};

use crate::Item;
use arrayvec::ArrayVec;
use scl_run::number_within;
use std::marker::Model;

/// The greatest number of items of a list.
const MOST_ITEMS: usize = 4096;

/// The greatest number of bytes of the word of a list.
const MOST_BYTES: usize = 65_536;

/// The items of a list of positions, in order: at most 4,096. It is seen as a list of items.
#[derive(Drop)]
pub struct Positions {
    held: ArrayVec<Item, 4096>,
}

impl Model for Positions {
    ghost use Rattle.std.specs.Prelude.{List};
    ghost use Rattle.deliver_job.specs.declared.items.Item.{Item};

    ghost Value = { List Item };

    ghost view = { λ p. p.held.items };
}

impl Positions {
    /// No items.
    fn new() -> Positions
        ensures { result ≡ [] }
    {
        Positions {
            held: ArrayVec::new(),
        }
    }

    /// Adds an item at the end.
    fn add(&mut self, item: Item)
        requires { length self.old < 4096 }
        ensures { self.new ≡ self.old ++ item ∷ [] }
    {
        self.held.push(item);
    }

    /// The items.
    pub fn items(&self) -> &[Item]
        ensures { result.now ≡ self.now }
    {
        &self.held
    }
}

/// The position that a word spells, below 2^32, in decimal digits without a sign and without a
/// leading zero; none for any other word.
fn position_in(word: &str) -> Option<u32>
    ensures fits { IfSome result (λ position. position < 2 ^ 32) }
    ensures spelt { IfSome result (λ position. word.now ≡ decimal position) }
    ensures all { (position : ℕ) → position < 2 ^ 32 → word.now ≡ decimal position → result ≡ Some position }
{
    let position = number_within(word, 0, 4_294_967_295)?;
    Some(position as u32)
}

/// The positions from the first to the last one; none where the first is greater.
fn span_of(first: u32, last: u32) -> Option<Item>
    ensures up { first ≤ last → result ≡ Some (Item.Span first last) }
    ensures down { last < first → result ≡ None }
{
    if first <= last {
        Some(Item::Span(first, last))
    } else {
        None
    }
}

/// The item that a word spells: a position, or two with a hyphen between them, the first of which
/// isn't greater; none for any other word.
fn item_in(word: &str) -> Option<Item>
    ensures spelt { IfSome result (λ item. IsItem item × (word.now ≡ item_word item)) }
    ensures all { (item : Item) → IsItem item → word.now ≡ item_word item → result ≡ Some item }
{
    match word.split_once('-') {
        Some((first, last)) => span_of(position_in(first)?, position_in(last)?),
        None => Some(Item::One(position_in(word)?)),
    }
}

/// The items that a word spells, 1 to 4,096 with commas between them; none for any other word.
fn items_in(word: &str) -> Option<Positions>
    ensures spelt { IfSome result (λ list. SpellsItems word.now list) }
    ensures all { (list : List Item) → SpellsItems word.now list → result ≡ Some list }
{
    let mut list = Positions::new();
    let mut rest = word;
    while let Some((part, more)) = rest.split_once(',') {
        if list.items().len() == MOST_ITEMS - 1 {
            return None;
        }
        list.add(item_in(part)?);
        rest = more;
    }
    list.add(item_in(rest)?);
    Some(list)
}

/// The list that a word spells: `none`, or 1 to 4,096 items with commas between them, of at most
/// 65,536 bytes in all; none for any other word.
pub fn positions_in(word: &str) -> Option<Positions>
    ensures spelt { IfSome result (λ list. IsList list × (word.now ≡ list_word list)) }
    ensures all { (list : List Item) → IsList list → word.now ≡ list_word list → result ≡ Some list }
{
    if word == "none" {
        return Some(Positions::new());
    }
    if word.len() > MOST_BYTES {
        return None;
    }
    items_in(word)
}
