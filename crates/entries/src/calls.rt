// The call entries of a session, taken apart.
ghost use Rattle.std.specs.Prelude.{◌≡◌, ◌<◌, length};
ghost use Rattle.entries.specs.Calls as calls;

use crate::{CallEntry, Unreadable};

// The kinds are numbers, since they are bytes of the wire.
const INSTANT_KIND: u8 = 64;

const MARK_KIND: u8 = 65;

const ENQUIRY_KIND: u8 = 66;

const COMMIT_KIND: u8 = 67;

const MARKS_KIND: u8 = 68;

const INSTANT_SIZE: usize = 13;

const MARK_SIZE: usize = 3;

const COMMIT_SIZE: usize = 21;

const MARKS_SIZE: usize = 6;

// The places of a call's fields, the kind byte at 0. Those of an enquiry are an instant's.
const INSTANT_TIME: usize = 1;

const INSTANT_SET: usize = 9;

const MARK_TASK: usize = 1;

const MARK_MARK: usize = 2;

const COMMIT_TICKET: usize = 1;

const COMMIT_TIME: usize = 9;

const COMMIT_SET: usize = 17;

const MARKS_SET: usize = 1;

const MARKS_MARK: usize = 5;

#[tactic(auto, unfolding(crate::specs::Calls::instant_at))]
fn instant_at(s: &[u8], at: usize) -> Result<CallEntry, Unreadable>
    requires { at < length s.now }
    ensures { result ≡ calls.instant_at s.now at }
{
    if s.len() - at < INSTANT_SIZE {
        return Err(Unreadable::CutShort);
    }
    Ok(CallEntry::InstantCall {
        time: words::get_u64(s, at + INSTANT_TIME),
        set: words::get_u32(s, at + INSTANT_SET),
    })
}

#[tactic(auto, unfolding(crate::specs::Calls::mark_at))]
fn mark_at(s: &[u8], at: usize) -> Result<CallEntry, Unreadable>
    requires { at < length s.now }
    ensures { result ≡ calls.mark_at s.now at }
{
    if s.len() - at < MARK_SIZE {
        return Err(Unreadable::CutShort);
    }
    Ok(CallEntry::MarkCall {
        task: words::get_u8(s, at + MARK_TASK),
        mark: words::get_u8(s, at + MARK_MARK),
    })
}

#[tactic(auto, unfolding(crate::specs::Calls::enquiry_at))]
fn enquiry_at(s: &[u8], at: usize) -> Result<CallEntry, Unreadable>
    requires { at < length s.now }
    ensures { result ≡ calls.enquiry_at s.now at }
{
    if s.len() - at < INSTANT_SIZE {
        return Err(Unreadable::CutShort);
    }
    Ok(CallEntry::EnquiryCall {
        time: words::get_u64(s, at + INSTANT_TIME),
        set: words::get_u32(s, at + INSTANT_SET),
    })
}

#[tactic(auto, unfolding(crate::specs::Calls::commit_at))]
fn commit_at(s: &[u8], at: usize) -> Result<CallEntry, Unreadable>
    requires { at < length s.now }
    ensures { result ≡ calls.commit_at s.now at }
{
    if s.len() - at < COMMIT_SIZE {
        return Err(Unreadable::CutShort);
    }
    Ok(CallEntry::CommitCall {
        ticket: words::get_u64(s, at + COMMIT_TICKET),
        time: words::get_u64(s, at + COMMIT_TIME),
        set: words::get_u32(s, at + COMMIT_SET),
    })
}

#[tactic(auto, unfolding(crate::specs::Calls::marks_at))]
fn marks_at(s: &[u8], at: usize) -> Result<CallEntry, Unreadable>
    requires { at < length s.now }
    ensures { result ≡ calls.marks_at s.now at }
{
    if s.len() - at < MARKS_SIZE {
        return Err(Unreadable::CutShort);
    }
    Ok(CallEntry::MarksCall {
        set: words::get_u32(s, at + MARKS_SET),
        mark: words::get_u8(s, at + MARKS_MARK),
    })
}

// The call whose kind byte is at `at`.
#[tactic(auto, using(words::proofs::Laws::one_byte), unfolding(crate::specs::Calls::call_at))]
pub fn call_at(s: &[u8], at: usize) -> Result<CallEntry, Unreadable>
    ensures { result ≡ calls.call_at s.now at }
{
    if s.len() <= at {
        return Err(Unreadable::CutShort);
    }
    match s[at] {
        INSTANT_KIND => instant_at(s, at),
        MARK_KIND => mark_at(s, at),
        ENQUIRY_KIND => enquiry_at(s, at),
        COMMIT_KIND => commit_at(s, at),
        MARKS_KIND => marks_at(s, at),
        _ => Err(Unreadable::OtherKind),
    }
}

// How many bytes a whole call takes; 0 for what is none.
pub fn call_size(entry: Result<CallEntry, Unreadable>) -> usize
    ensures { result ≡ calls.call_size entry }
{
    match entry {
        Err(_) => 0,
        Ok(CallEntry::InstantCall { .. }) => INSTANT_SIZE,
        Ok(CallEntry::MarkCall { .. }) => MARK_SIZE,
        Ok(CallEntry::EnquiryCall { .. }) => INSTANT_SIZE,
        Ok(CallEntry::CommitCall { .. }) => COMMIT_SIZE,
        Ok(CallEntry::MarksCall { .. }) => MARKS_SIZE,
    }
}
