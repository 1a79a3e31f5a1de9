//! The request streams that are over, in a few bytes each.
ghost use Rattle.std.specs.Prelude.{◌≡◌, ◌≢◌, ◌<◌, ◌≤◌, ◌^◌, ℕ, [], Some, true, false, length, is_some, option_copied, IfSome};
ghost use Rattle.h3_blocked.specs.Sums.{TakesOut};
ghost use Rattle.h3_connection.specs.Calls.{Sets};
ghost use Rattle.h3_connection.specs.State.{kept_at};
ghost use Rattle.h3_connection.specs.declared.event.StreamFault.TheVariants.{Reset};
ghost use Rattle.h3_outgoing.specs.Sent.{end_waits};
ghost use Rattle.h3_requests.specs.Greatest.{IsGreatest};
ghost use Rattle.h3_requests.specs.HasBytes.{has_end};
ghost use Rattle.h3_requests.specs.Marks.{code_at, mark_at, AreBelow, HaveSameMarks, IsOneMark};
ghost use Rattle.h3_requests.specs.Over.{over_so, reset_with, way_at, ways_in, with_end_taken, AddsWays, AreAlike, HasWays, IsOver, IsWay};

use crate::stream::RequestStream;
use h3_proto::stream::StreamId;
use std::alloc::{AllocError, Global};
use std::marker::Model;

mod codes;
mod marks;
mod ways;

use codes::Codes;
use marks::Marks;
use ways::{Ways, group_of};

/// In so many ways streams of one precedence are over here. One that is over in a further way stays as it is.
const MOST_WAYS: usize = 255;

/// With so many ways a reset whose code is new has its code kept beside its way,
const MOST_CODES: usize = 64;

/// and with so many of a group that is not 0, since there may be many groups.
const MOST_CODES_OF_OTHERS: usize = 16;

/// A way in which streams are over, by one stream that stands for them.
#[derive(Drop)]
pub(crate) struct Way {
    stream: RequestStream,
    // whether each of them was reset with a code of its own
    has_code: bool,
}

/// The streams that are over, by their ids. Many are over in the same way. Of each way one stream is kept, and of each stream the number of
/// its way, its group if a priority was said or it is held, and its code if there were many codes of resets before.
#[derive(Drop)]
pub(crate) struct OverStreams {
    // the number of a stream's way among those of its group
    marks: Marks,
    groups: Marks,
    ways: Ways,
    // of a stream whose way says so
    codes: Codes,
}

impl Model for OverStreams {
    ghost use Rattle.h3_connection.specs.State.{RequestState};
    ghost use Rattle.h3_connection.specs.StreamSets.{Streams};
    ghost use Rattle.h3_requests.specs.Listed.{streams_of};
    ghost use Rattle.h3_requests.specs.Marks.{code_at, mark_at, AreBelow};
    ghost use Rattle.h3_requests.specs.Over.{over_in, ways_in, AreMarked};

    ghost Value = { Streams RequestState };

    ghost view = { λ o. streams_of (over_in (ways_in o.ways) (mark_at o.groups) (mark_at o.marks) (code_at o.codes)) };

    ghost invariant = { λ o. AreMarked (ways_in o.ways) (mark_at o.groups) (mark_at o.marks) × AreBelow o.marks × AreBelow o.groups };
}

impl OverStreams {
    /// No stream. It takes no memory.
    pub(crate) fn new(alloc: Global) -> OverStreams
        ensures { result ≡ [] }
    {
        OverStreams {
            marks: Marks::new(alloc),
            groups: Marks::new(alloc),
            ways: Ways::new(alloc),
            codes: Codes::new(alloc),
        }
    }

    /// What memory is taken from.
    pub(crate) fn allocator(&self) -> Global {
        self.ways.allocator()
    }

    /// Whether the stream of that id is among them.
    pub(crate) fn contains(&self, id: StreamId) -> bool
        ensures value { result ≡ is_some (kept_at self.now id) }
        ensures over { IfSome (kept_at self.now id) IsOver }
    {
        self.marks.get_if_any(id.into_inner()) > 0
    }

    /// The greatest id of a stream that is among them.
    pub(crate) fn greatest(&self) -> Option<u64>
        ensures value { IsGreatest (λ id. is_some (kept_at self.now id)) result }
        ensures fits { IfSome result (λ id. id < 2 ^ 64) }
        ensures over { (id : ℕ) → IfSome (kept_at self.now id) IsOver }
    {
        self.marks.greatest()
    }

    /// They are over. It does nothing: a proof that needs the fact calls it.
    pub(crate) fn are_over(&self)
        ensures { (id : ℕ) → IfSome (kept_at self.now id) IsOver }
    {
        let _alloc = self.ways.allocator();
    }

    /// The stream of that id, if it is among them, but for the code of a reset.
    pub(crate) fn get_alike(&self, id: StreamId) -> Option<&RequestStream>
        ensures { AreAlike (option_copied result) (kept_at self.now id) }
    {
        let number = id.into_inner();
        let way = self.marks.get_if_any(number);
        if way == 0 {
            return None;
        }
        match self.ways.get(self.groups.get_if_any(number), way) {
            Some(way) => Some(&way.stream),
            None => None,
        }
    }

    /// One like the stream of that id, if it is among them. It takes no memory.
    pub(crate) fn get(&self, id: StreamId) -> Option<RequestStream>
        ensures value { result ≡ kept_at self.now id }
        ensures over { IfSome (kept_at self.now id) IsOver }
    {
        let number = id.into_inner();
        let way = self.marks.get(number);
        if way == 0 {
            return None;
        }
        let alloc = self.ways.allocator();
        let code = self.codes.get(number);
        match self.ways.get(self.groups.get_if_any(number), way) {
            Some(way) => Some(like_way(way, alloc, code)),
            None => None,
        }
    }

    /// Takes memory for a stream, so that putting it in mostly takes none.
    pub(crate) fn reserve(&mut self, alloc: Global, id: StreamId) -> Result<(), AllocError>
        ensures same { self.new ≡ self.old }
        ensures over { IfSome (kept_at self.old id) IsOver }
    {
        let number = id.into_inner();
        self.ways.reserve()?;
        self.marks.reserve(alloc, number)
    }

    /// Puts a stream in that is over, and returns whether it did: not if no memory was taken for it, and not if there are too many ways.
    pub(crate) fn put(&mut self, id: StreamId, stream: &RequestStream) -> bool
        requires { IsOver stream.now }
        ensures put { result ≡ true → Sets self.old self.new id stream.now }
        ensures same { result ≡ false → self.new ≡ self.old }
    {
        let code = stream.code_of_reset();
        let group = group_of(&stream.outgoing().precedence());
        let most = most_ways(group, code);
        let way = self.ways.way_of(group, stream, false, most);
        if way > 0 {
            let alloc = self.ways.allocator();
            return mark(
                &mut self.groups,
                &mut self.marks,
                alloc,
                id.into_inner(),
                group,
                way,
            );
        }
        let Some(code) = code else {
            return false;
        };
        self.put_coded(id, group, stream, code)
    }

    // The same of a stream that was reset with this code, which is kept beside its way.
    #[inline(never)]
    fn put_coded(&mut self, id: StreamId, group: u8, stream: &RequestStream, code: u64) -> bool
        requires over { IsOver stream.now }
        requires reset { stream.now.incoming.fault ≡ Some (Reset code) }
        ensures put { result ≡ true → Sets self.old self.new id stream.now }
        ensures same { result ≡ false → self.new ≡ self.old }
    {
        let way = coded_way(&mut self.ways, group, stream);
        if way == 0 {
            return false;
        }
        let alloc = self.ways.allocator();
        let number = id.into_inner();
        if !set_both(
            &mut self.groups,
            &mut self.codes,
            alloc,
            number,
            group,
            code,
        ) {
            return false;
        }
        self.marks.set(number, way)
    }

    /// Takes the end of a stream, and returns whether it waited. It takes no memory. Nothing changes if it did not wait.
    pub(crate) fn take_end(&mut self, id: StreamId) -> bool
        ensures told { result ≡ has_end (kept_at self.old id) }
        ensures taken { result ≡ true → IfSome (kept_at self.old id) (λ r. Sets self.old self.new id (with_end_taken r)) }
        ensures same { result ≡ false → self.new ≡ self.old }
        ensures over { IfSome (kept_at self.old id) IsOver }
        ensures number { id < 2 ^ 62 }
    {
        let number = id.into_inner();
        let way = self.marks.get(number);
        if way == 0 {
            return false;
        }
        let group = self.groups.get_if_any(number);
        let Some(kept) = self.ways.get(group, way) else {
            return false;
        };
        if !kept.stream.outgoing().end_waits() {
            return false;
        }
        self.marks.set(number, way + 1)
    }

    /// Takes a stream out, if it is among them.
    pub(crate) fn remove(&mut self, id: StreamId)
        ensures takes_out { TakesOut self.old self.new id }
        ensures over { IfSome (kept_at self.old id) IsOver }
    {
        self.marks.set(id.into_inner(), 0);
    }
}

// How many ways of a group may be known if one more is to be added, of streams that were reset with this code or were not.
fn most_ways(group: u8, code: Option<u64>) -> usize
    ensures { result ≤ 255 }
{
    match code {
        Some(_) if group > 0 => MOST_CODES_OF_OTHERS,
        Some(_) => MOST_CODES,
        None => MOST_WAYS,
    }
}

// Marks a stream with its group and its way, and returns whether it did: not if no memory was taken for its way, or an allocation for its
// group failed.
fn mark(
    groups: &mut Marks,
    marks: &mut Marks,
    alloc: Global,
    number: u64,
    group: u8,
    way: u8,
) -> bool
    requires { AreBelow groups.old }
    ensures set { result ≡ true → IsOneMark number way (mark_at marks.old) (mark_at marks.new) }
    ensures group { result ≡ true → IsOneMark number group (mark_at groups.old) (mark_at groups.new) }
    ensures same { result ≡ false → HaveSameMarks (mark_at marks.old) (mark_at marks.new) }
    ensures kept { result ≡ false → (id : ℕ) → mark_at marks.old id ≢ 0 → mark_at groups.new id ≡ mark_at groups.old id }
    ensures below { AreBelow marks.old → AreBelow marks.new }
    ensures groups_below { AreBelow groups.new }
{
    if !set_group(groups, alloc, number, group) {
        return false;
    }
    marks.set(number, way)
}

// Gives a stream its group and its code, and returns whether it did: not if an allocation failed, and nothing changes then.
#[tactic(auto, using(crate::proofs::Ways::set_again))]
fn set_both(
    groups: &mut Marks,
    codes: &mut Codes,
    alloc: Global,
    number: u64,
    group: u8,
    code: u64,
) -> bool
    requires { AreBelow groups.old }
    ensures group { result ≡ true → IsOneMark number group (mark_at groups.old) (mark_at groups.new) }
    ensures code { result ≡ true → IsOneMark number code (code_at codes.old) (code_at codes.new) }
    ensures same_groups { result ≡ false → HaveSameMarks (mark_at groups.old) (mark_at groups.new) }
    ensures same_codes { result ≡ false → HaveSameMarks (code_at codes.old) (code_at codes.new) }
    ensures below { AreBelow groups.new }
{
    if group == 0 {
        return set_plain(groups, codes, alloc, number, code);
    }
    let before = groups.get_if_any(number);
    if !set_group(groups, alloc, number, group) {
        return false;
    }
    let Ok(()) = codes.set(alloc, number, code) else {
        set_back(groups, number, before);
        return false;
    };
    true
}

// The same with the group 0, for which no memory is taken.
fn set_plain(groups: &mut Marks, codes: &mut Codes, alloc: Global, number: u64, code: u64) -> bool
    requires { AreBelow groups.old }
    ensures group { result ≡ true → IsOneMark number 0 (mark_at groups.old) (mark_at groups.new) }
    ensures code { result ≡ true → IsOneMark number code (code_at codes.old) (code_at codes.new) }
    ensures same_groups { result ≡ false → HaveSameMarks (mark_at groups.old) (mark_at groups.new) }
    ensures same_codes { result ≡ false → HaveSameMarks (code_at codes.old) (code_at codes.new) }
    ensures below { AreBelow groups.new }
{
    let Ok(()) = codes.set(alloc, number, code) else {
        return false;
    };
    clear_group(groups, number);
    true
}

// Gives a stream that has a group the one that it had before.
#[tactic(auto, using(crate::proofs::Ways::one_set))]
fn set_back(groups: &mut Marks, number: u64, before: u8)
    requires below { AreBelow groups.old }
    requires some { 0 < mark_at groups.old number }
    ensures set { IsOneMark number before (mark_at groups.old) (mark_at groups.new) }
    ensures below { AreBelow groups.new }
{
    groups.set(number, before);
}

// Gives a stream the group 0.
#[tactic(auto, using(crate::proofs::Ways::one_set))]
fn clear_group(groups: &mut Marks, number: u64)
    requires { AreBelow groups.old }
    ensures set { IsOneMark number 0 (mark_at groups.old) (mark_at groups.new) }
    ensures below { AreBelow groups.new }
{
    groups.set(number, 0);
}

// Gives a stream its group, and returns whether it did: not if an allocation failed. (Mostly it has it: the group of no priority.)
#[inline(always)]
#[tactic(auto, using(crate::proofs::Ways::own_set))]
fn set_group(groups: &mut Marks, alloc: Global, number: u64, group: u8) -> bool
    requires { AreBelow groups.old }
    ensures set { result ≡ true → IsOneMark number group (mark_at groups.old) (mark_at groups.new) }
    ensures same { result ≡ false → HaveSameMarks (mark_at groups.old) (mark_at groups.new) }
    ensures below { AreBelow groups.new }
{
    if groups.get_if_any(number) == group {
        return true;
    }
    set_other_group(groups, alloc, number, group)
}

// The same, if it has another.
#[inline(never)]
#[tactic(auto, using(crate::proofs::Ways::own_set))]
fn set_other_group(groups: &mut Marks, alloc: Global, number: u64, group: u8) -> bool
    requires { AreBelow groups.old }
    ensures set { result ≡ true → IsOneMark number group (mark_at groups.old) (mark_at groups.new) }
    ensures same { result ≡ false → HaveSameMarks (mark_at groups.old) (mark_at groups.new) }
    ensures below { AreBelow groups.new }
{
    let Ok(()) = groups.reserve(alloc, number) else {
        return false;
    };
    groups.set(number, group)
}

// What is over in this way, with this code.
fn like_way(way: &Way, alloc: Global, code: u64) -> RequestStream
    requires { IsWay way.now }
    ensures { result ≡ over_so way.now code }
{
    if way.has_code {
        return way.stream.like_reset(alloc, code);
    }
    way.stream.like(alloc)
}

// The way in which a stream is over, each reset with a code of its own. It is 0 if there are too many, or if an allocation fails for one
// more.
fn coded_way(ways: &mut Ways, group: u8, stream: &RequestStream) -> u8
    requires over { IsOver stream.now }
    requires ways { (group way : ℕ) → IfSome (way_at (ways_in ways.old group) way) IsWay }
    ensures is { 0 < result → way_at (ways_in ways.new group) result ≡ Some (record { stream = reset_with stream.now 0; has_code = true }) }
    ensures known { result ≤ length (ways_in ways.new group) }
    ensures others { HasWays (ways_in ways.old group) (ways_in ways.new group) }
    ensures adds { AddsWays (ways_in ways.old group) (ways_in ways.new group) }
    ensures rest { (other : ℕ) → other ≢ group → ways_in ways.new other ≡ ways_in ways.old other }
{
    let alike = stream.like_reset(ways.allocator(), 0);
    ways.way_of(group, &alike, true, MOST_WAYS)
}

// The way in which a stream is over, each with a code of its own or not. It is 0 if there are too many, or if an allocation fails for one
// more.
#[inline(always)]
fn way_of(ways: &mut Vec<Way>, stream: &RequestStream, has_code: bool, most: usize) -> u8
    requires over { IsOver stream.now }
    requires ways { (way : ℕ) → IfSome (way_at ways.old.items way) IsWay }
    requires code { has_code ≡ true → stream.now.incoming.fault ≡ Some (Reset 0) }
    requires most { most ≤ 255 }
    ensures is { 0 < result → way_at ways.new.items result ≡ Some (record { stream = stream.now; has_code = has_code }) }
    ensures known { result ≤ length ways.new.items }
    ensures others { HasWays ways.old.items ways.new.items }
    ensures adds { AddsWays ways.old.items ways.new.items }
{
    let known = known_way(ways, stream, has_code);
    if known > 0 {
        return known;
    }
    add_ways(ways, stream, has_code, most)
}

// A way more, and with an end that waits two.
#[inline(never)]
fn add_ways(ways: &mut Vec<Way>, stream: &RequestStream, has_code: bool, most: usize) -> u8
    requires over { IsOver stream.now }
    requires code { has_code ≡ true → stream.now.incoming.fault ≡ Some (Reset 0) }
    requires most { most ≤ 255 }
    ensures is { 0 < result → way_at ways.new.items result ≡ Some (record { stream = stream.now; has_code = has_code }) }
    ensures known { result ≤ length ways.new.items }
    ensures others { HasWays ways.old.items ways.new.items }
    ensures adds { AddsWays ways.old.items ways.new.items }
{
    if stream.outgoing().end_waits() {
        return add_both(ways, stream, has_code, most);
    }
    add_way(ways, stream, has_code, most)
}

// A way more, in which the end does not wait.
fn add_way(ways: &mut Vec<Way>, stream: &RequestStream, has_code: bool, most: usize) -> u8
    requires over { IsOver stream.now }
    requires code { has_code ≡ true → stream.now.incoming.fault ≡ Some (Reset 0) }
    requires ended { end_waits stream.now.outgoing ≡ false }
    requires most { most ≤ 255 }
    ensures is { 0 < result → way_at ways.new.items result ≡ Some (record { stream = stream.now; has_code = has_code }) }
    ensures known { result ≤ length ways.new.items }
    ensures others { HasWays ways.old.items ways.new.items }
    ensures adds { AddsWays ways.old.items ways.new.items }
{
    let count = ways.len();
    if count >= most {
        return 0;
    }
    let alloc = *ways.allocator();
    let Ok(()) = ways.reserve(1) else {
        return 0;
    };
    let stream = stream.like(alloc);
    ways.push_reserved(Way { stream, has_code });
    (count + 1) as u8
}

// Adds a way, and after it the same way with the end taken: so a stream whose end is taken later goes on to that one with no memory.
fn add_both(ways: &mut Vec<Way>, stream: &RequestStream, has_code: bool, most: usize) -> u8
    requires over { IsOver stream.now }
    requires code { has_code ≡ true → stream.now.incoming.fault ≡ Some (Reset 0) }
    requires most { most ≤ 255 }
    ensures is { 0 < result → way_at ways.new.items result ≡ Some (record { stream = stream.now; has_code = has_code }) }
    ensures known { result ≤ length ways.new.items }
    ensures others { HasWays ways.old.items ways.new.items }
    ensures adds { AddsWays ways.old.items ways.new.items }
{
    let count = ways.len();
    if count + 1 >= most {
        return 0;
    }
    let alloc = *ways.allocator();
    let Ok(()) = ways.reserve(2) else {
        return 0;
    };
    let taken = stream.with_end_taken(alloc);
    let stream = stream.like(alloc);
    ways.push_reserved(Way { stream, has_code });
    ways.push_reserved(Way {
        stream: taken,
        has_code,
    });
    count as u8 + 1
}

// The same among the ways that are known, or 0 if no other was over so.
fn known_way(ways: &[Way], stream: &RequestStream, has_code: bool) -> u8
    requires over { IsOver stream.now }
    requires ways { (way : ℕ) → IfSome (way_at ways.now way) IsWay }
    ensures is { 0 < result → way_at ways.now result ≡ Some (record { stream = stream.now; has_code = has_code }) }
    ensures known { result ≤ length ways.now }
{
    for index in 0..ways.len() {
        if index >= MOST_WAYS {
            return 0;
        }
        if is_way(&ways[index], stream, has_code) {
            return (index + 1) as u8;
        }
    }
    0
}

// Whether a stream is over in this way.
fn is_way(way: &Way, stream: &RequestStream, has_code: bool) -> bool
    requires over { IsOver stream.now }
    requires way { IsOver way.now.stream }
    ensures { result ≡ true → way.now ≡ record { stream = stream.now; has_code = has_code } }
{
    way.has_code == has_code && way.stream.is_over_like(stream)
}
