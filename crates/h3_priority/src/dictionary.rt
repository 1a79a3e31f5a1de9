//! Dictionaries of structured fields (RFC 8941, section 4.2).
ghost use Rattle.std.specs.Prelude.{◌≡◌, ◌||◌, MatchOption};
ghost use Rattle.h3_priority.specs.Dictionary.{listed_at, inner_list_at, value_at, member_at, comma_at};
ghost use Rattle.h3_priority.specs.Reading.{Answers, begins_with};

use crate::characters::Class;
use crate::cursor::Cursor;
use crate::item::Item;

impl<'a> Cursor<'a> {
    // Whether what may follow an item of an inner list comes next.
    fn is_at_end_of_item(&self) -> bool
        ensures { result ≡ (begins_with 32 self.now || begins_with 41 self.now) }
    {
        self.begins_with(b' ') || self.begins_with(b')')
    }

    // Takes the items of an inner list and its ")".
    fn listed(&mut self) -> Option<()>
        ensures { Answers (listed_at self.old) result self.new }
    {
        self.take_all(Class::Space);
        // (the label names the loop in its proof)
        'items: while !self.take(b')') {
            self.item()?;
            if !self.is_at_end_of_item() {
                return None;
            }
            self.take_all(Class::Space);
        }
        Some(())
    }

    // Takes an inner list. Its "(" was read.
    #[tactic(auto, unfolding(crate::specs::Dictionary::inner_list_at))]
    fn inner_list(&mut self) -> Option<Item>
        ensures { Answers (inner_list_at self.old) result self.new }
    {
        self.listed()?;
        self.parameters()?;
        Some(Item::Other)
    }

    // Takes an item or an inner list.
    #[tactic(auto, unfolding(crate::specs::Dictionary::value_at))]
    fn value(&mut self) -> Option<Item>
        ensures { Answers (value_at self.old) result self.new }
    {
        if self.take(b'(') {
            return self.inner_list();
        }
        self.item()
    }

    /// Takes a member: its key and its value.
    #[tactic(auto, unfolding(crate::specs::Dictionary::member_at))]
    pub fn member(&mut self) -> Option<(&'a [u8], Item)>
        ensures { MatchOption result (member_at self.old ≡ None) (λ m. member_at self.old ≡ Some ((m.0.now, m.1), self.new)) }
    {
        let key = self.key()?;
        if self.take(b'=') {
            let item = self.value()?;
            return Some((key, item));
        }
        self.parameters()?;
        Some((key, Item::Boolean(true)))
    }

    /// Takes what follows a member, and says whether another member follows.
    #[tactic(auto, unfolding(crate::specs::Dictionary::comma_at))]
    pub fn comma(&mut self) -> Option<bool>
        ensures { Answers (comma_at self.old) result self.new }
    {
        self.take_all(Class::Whitespace);
        if self.is_empty() {
            return Some(false);
        }
        if !self.take(b',') {
            return None;
        }
        self.take_all(Class::Whitespace);
        if self.is_empty() { None } else { Some(true) }
    }
}
