//! The peer's control stream (RFC 9114, section 6.2.1).
ghost use Rattle.std.specs.Prelude.{◌≡◌, ◌+◌, ◌^◌, ◌<◌, ◌++◌, ℕ, List, [], length, false, remove, slice_get, Some, None, is_some, IfOk};
ghost use Rattle.std.specs.Prelude.{IfErr, OnOk, OnErr, option_copied};
ghost use Rattle.std.specs.List.{concat};
ghost use Rattle.h3_proto.specs.declared.stream.Side.{Side};
ghost use Rattle.h3_frames.specs.FirstFrames.{begins_other};
ghost use Rattle.h3_frames.specs.Known.{refusal};
ghost use Rattle.h3_frames.specs.UnknownSize.{held_length};
ghost use Rattle.h3_connection.specs.Codes.{settings_code, refusal_code};
ghost use Rattle.h3_connection.specs.KeptGoaways.{keeps_last, kept_found, kept_peer};
ghost use Rattle.h3_connection.specs.Lasts.{last_id};
ghost use Rattle.h3_connection.specs.OtherSettings.{no_others, setting_in};
ghost use Rattle.h3_connection.specs.PeerReading.{Peer, none_read, with_unread, is_no_goaway, read_goaway, read_max_push, read_update};
ghost use Rattle.h3_connection.specs.PeerReading.{read_frame, refused_code, read_peer};
ghost use Rattle.h3_connection.specs.StreamSets.{stream_at};
ghost use Rattle.h3_connection.specs.StrictConnection.{settings_refused};
ghost use Rattle.h3_unidirectional.specs.Fronts.{KeepsOn, KeepsPart, ReadsFront, StopsReading, found_first};
ghost use Rattle.h3_unidirectional.specs.Judged.{KeepsEarlier, TellsOthers, done, items_of, others_by, ReadsOne};

use crate::limits::keeps_last;
use crate::other_settings::OtherSettings;
use crate::updates::WaitingUpdates;
use bytes::Bytes;
use h3_coding::varint::VarInt;
use h3_connection::setup::Announced;
use h3_frames::frame::{FrameBuffer, FrameKinds, FrameProtocolError, FrameStreamError};
use h3_frames::proto::frame::{Frame, PayloadLen, PriorityUpdate};
use h3_priority::priority::Priority;
use h3_proto::config::Choices;
use h3_proto::error::Code;
use h3_proto::frame::{SettingId, Settings, SettingsError};
use h3_proto::push::PushId;
use h3_proto::stream::{Side, StreamId};
use std::alloc::{AllocError, Global};
use std::marker::Model;

/// What was read of the peer's control stream, and the bytes of it that were not.
#[derive(Drop)]
pub struct PeerControl {
    unread: FrameBuffer,
    settings: Option<Settings>,
    goaways: Vec<VarInt>,
    most_pushes: Option<PushId>,
    updates: WaitingUpdates,
    others: OtherSettings,
}

impl Model for PeerControl {
    ghost use Rattle.std.specs.Prelude.{◌≡◌, [], None};
    ghost use Rattle.std.specs.List.{concat};
    ghost use Rattle.h3_connection.specs.PeerReading.{Peer};
    ghost use Rattle.h3_unidirectional.specs.Waits.{others_in, updates_in};

    ghost Value = { Peer };

    ghost view = { λ p. record {
      unread = concat p.unread.pieces;
      settings = p.settings;
      goaways = p.goaways.items;
      most_pushes = p.most_pushes;
      updates = updates_in p.updates;
      others = others_in p.others;
    } };

    ghost invariant = { λ p. p.settings ≡ None → p.others.kept.items ≡ [] };
}

/// What a frame does.
#[derive(Drop)]
enum Judged {
    Settings(Settings),
    Goaway(VarInt),
    MaxPushId(PushId),
    Update(StreamId, Priority),
    Fault(Code),
}

/// How far a reading has come.
#[derive(Clone, Copy)]
enum Progress {
    /// A frame was read, and there may be more.
    GoesOn,
    /// What is left is no whole frame, or there is a fault.
    Ends(Option<Code>),
}

/// The fault of refused settings.
fn settings_code(e: &SettingsError) -> Code
    ensures { result ≡ settings_code e.now }
{
    match e {
        SettingsError::Malformed => Code::H3_FRAME_ERROR,
        _ => Code::H3_SETTINGS_ERROR,
    }
}

/// The fault of a refused frame, wherever it stands.
pub fn refusal_code(e: &FrameProtocolError) -> Code
    ensures { result ≡ refusal_code (refusal e.now) }
{
    match e {
        FrameProtocolError::Settings(e) => settings_code(e),
        FrameProtocolError::ForbiddenFrame(_) => Code::H3_FRAME_UNEXPECTED,
        _ => Code::H3_FRAME_ERROR,
    }
}

/// Whether an id may not stand in a GOAWAY frame to this side: a server names request streams alone.
fn is_no_goaway(side: Side, id: u64) -> bool
    ensures { result ≡ is_no_goaway side id }
{
    match side {
        Side::Client => id % 4 != 0,
        Side::Server => false,
    }
}

// RFC 9114 6.2.1: SETTINGS first
/// The first frame has to be the settings.
fn judge_first(frame: Frame<PayloadLen>) -> Judged
    ensures { (side : Side) (p : Peer) → read_frame side p None frame ≡ done p result }
{
    if let Frame::Settings(settings) = frame {
        return Judged::Settings(settings);
    }
    Judged::Fault(Code::H3_MISSING_SETTINGS)
}

// RFC 9218 7.2: PRIORITY_UPDATE, received
/// An update of a priority: for the request stream of a client alone, as no push was promised.
fn judge_update(side: Side, update: &PriorityUpdate) -> Judged
    ensures { (p : Peer) → read_update side p update.now ≡ done p result }
{
    match side {
        Side::Client => return Judged::Fault(Code::H3_FRAME_UNEXPECTED),
        Side::Server => {}
    }
    let id = update.id();
    if update.is_push() || id.into_inner() % 4 != 0 {
        return Judged::Fault(Code::H3_ID_ERROR);
    }
    match Priority::read(update.value()) {
        Some(priority) => Judged::Update(StreamId::from(id), priority),
        None => Judged::Fault(Code::H3_GENERAL_PROTOCOL_ERROR),
    }
}

impl PeerControl {
    /// A stream of which nothing came. What updates of priorities say is kept of so many streams, and so many settings of no meaning are.
    pub fn new(alloc: Global, most_updates: usize, most_others: usize) -> PeerControl
        ensures { result ≡ none_read most_updates most_others }
    {
        PeerControl {
            unread: FrameBuffer::new(alloc),
            settings: None,
            goaways: Vec::new(alloc),
            most_pushes: None,
            updates: WaitingUpdates::new(alloc, most_updates),
            others: OtherSettings::new(alloc, most_others),
        }
    }

    /// The peer's settings, once they came.
    pub fn settings(&self) -> Option<&Settings>
        ensures { option_copied result ≡ self.now.settings }
    {
        self.settings.as_ref()
    }

    /// Whether the settings came.
    pub fn has_settings(&self) -> bool
        ensures { result ≡ is_some self.now.settings }
    {
        self.settings.is_some()
    }

    /// The value of a setting that came, also of one that has no meaning here and is kept.
    pub fn setting(&self, id: SettingId) -> Option<u64>
        ensures { result ≡ setting_in self.now.settings self.now.others id }
    {
        let settings = self.settings.as_ref()?;
        match settings.get(id) {
            Some(value) => Some(value),
            None => self.others.get(id),
        }
    }

    /// The ids of the GOAWAY frames that are kept, in order.
    pub fn goaways(&self) -> &[VarInt]
        ensures { result.now ≡ self.now.goaways }
    {
        self.goaways.as_slice()
    }

    /// The id of the last GOAWAY frame.
    pub fn last_goaway(&self) -> Option<VarInt>
        ensures { result ≡ last_id self.now.goaways }
    {
        self.goaways.last().copied()
    }

    /// How many updates of priorities wait to be used.
    pub fn updates_waiting(&self) -> usize
        ensures { result ≡ length self.now.updates.waiting }
    {
        self.updates.len()
    }

    /// The update at a place, with the id of its stream.
    pub fn update_at(&self, place: usize) -> Option<(StreamId, Priority)>
        ensures { result ≡ slice_get self.now.updates.waiting place }
    {
        self.updates.at(place)
    }

    /// The update of a stream.
    pub fn update_of(&self, id: StreamId) -> Option<Priority>
        ensures { result ≡ stream_at self.now.updates.waiting id }
    {
        self.updates.get(id)
    }

    /// The update at this place waits no longer.
    pub fn remove_update(&mut self, place: usize)
        requires { place < length self.old.updates.waiting }
        ensures { self.new ≡ record self.old { updates = record self.old.updates { waiting = remove self.old.updates.waiting place } } }
    {
        self.updates.remove(place);
    }

    /// How many bytes are not read.
    pub fn unread_len(&self) -> usize
        ensures { result ≡ length self.now.unread }
    {
        self.unread.len()
    }

    /// How many of them are held: none while an unknown frame is under way at the front. If an allocation failed, the next reading frees
    /// its bytes.
    pub fn held(&self, kinds: FrameKinds) -> usize
        ensures { result ≡ held_length kinds self.now.unread }
    {
        self.unread.held(kinds)
    }

    /// The bytes that are not read. Its `tries` say how often the frame under way was tried, or else the last frame that was read, an
    /// unknown one too: at most 17 times.
    pub fn frames(&self) -> &FrameBuffer
        ensures { concat result.now.pieces ≡ self.now.unread }
    {
        &self.unread
    }

    /// Whether those bytes begin with the type and the length of a frame that is not SETTINGS (RFC 9114, section 6.2.1).
    pub fn begins_other(&self) -> bool
        ensures { result ≡ begins_other self.now.unread }
    {
        self.unread.begins_other()
    }

    /// More of the stream, which is kept until it is read. An `Err` changes nothing, and returns the bytes.
    pub fn push(&mut self, bytes: Bytes) -> Result<(), Bytes>
        requires { length self.old.unread + length bytes < 2 ^ 64 }
        ensures ok { OnOk result (self.new ≡ with_unread self.old (self.old.unread ++ bytes)) }
        ensures err { OnErr result (self.new ≡ self.old) }
        ensures back { IfErr result (λ back. back ≡ bytes) }
    {
        self.unread.push(bytes)
    }

    // RFC 9114 5.2: GOAWAY raised, received
    fn judge_goaway(&self, side: Side, id: VarInt) -> Judged
        ensures { read_goaway side self.now id ≡ done self.now result }
    {
        let number = id.into_inner();
        if is_no_goaway(side, number) {
            return Judged::Fault(Code::H3_ID_ERROR);
        }
        if let Some(earlier) = self.last_goaway() {
            if number > earlier.into_inner() {
                return Judged::Fault(Code::H3_ID_ERROR);
            }
        }
        Judged::Goaway(id)
    }

    // RFC 9114 7.2.7: MAX_PUSH_ID lowered
    fn judge_max_push(&self, side: Side, id: PushId) -> Judged
        ensures { read_max_push side self.now id ≡ done self.now result }
    {
        match side {
            Side::Client => Judged::Fault(Code::H3_FRAME_UNEXPECTED),
            Side::Server => {
                if let Some(earlier) = self.most_pushes {
                    if VarInt::from(id).into_inner() < VarInt::from(earlier).into_inner() {
                        return Judged::Fault(Code::H3_ID_ERROR);
                    }
                }
                Judged::MaxPushId(id)
            }
        }
    }

    // RFC 9114 7.2: frames out of place on a control stream
    fn judge_later(&self, side: Side, frame: Frame<PayloadLen>) -> Judged
        ensures { (pairs : List (ℕ × ℕ)) → read_frame side self.now (Some pairs) frame ≡ done self.now result }
    {
        match frame {
            Frame::Goaway(id) => self.judge_goaway(side, id),
            Frame::CancelPush(_) => Judged::Fault(Code::H3_ID_ERROR),
            Frame::MaxPushId(id) => self.judge_max_push(side, id),
            Frame::PriorityUpdate(update) => judge_update(side, &update),
            _ => Judged::Fault(Code::H3_FRAME_UNEXPECTED),
        }
    }

    fn judge(&self, side: Side, frame: Frame<PayloadLen>) -> Judged
        ensures { read_frame side self.now self.now.settings frame ≡ done self.now result }
    {
        if self.settings.is_some() {
            return self.judge_later(side, frame);
        }
        judge_first(frame)
    }

    /// The fault of a frame that is refused.
    fn refused(&self, e: FrameProtocolError) -> Code
        ensures { result ≡ refused_code self.now.settings (refusal e) }
    {
        if self.settings.is_some() {
            return refusal_code(&e);
        }
        match &e {
            FrameProtocolError::Settings(e) => settings_code(e),
            _ => Code::H3_MISSING_SETTINGS,
        }
    }

    // The settings of no meaning in the SETTINGS frame that comes first, if the settings have not come and such ones are kept.
    #[tactic(auto, using(crate::proofs::OthersTold::none_due, crate::proofs::OthersTold::none_wanted))]
    fn others_told(
        &self,
        alloc: Global,
        kinds: FrameKinds,
    ) -> Result<Option<Vec<(u64, u64)>>, AllocError>
        ensures { IfOk result (λ told. TellsOthers kinds self.now (items_of told)) }
    {
        if self.settings.is_some() {
            return Ok(None);
        }
        if self.others.most == 0 {
            return Ok(None);
        }
        let kept = self.unread.other_settings(alloc, kinds, self.others.most)?;
        Ok(Some(kept))
    }

    // The settings came, and beside them those of no meaning, if such ones are kept.
    fn take_settings(&mut self, settings: Settings, told: Option<Vec<(u64, u64)>>)
        ensures { self.new ≡ record self.old { settings = Some settings; others = others_by (items_of told) self.old.others } }
    {
        self.settings = Some(settings);
        if let Some(kept) = told {
            self.others.kept = kept;
        }
    }

    /// Reads the next frame, unless it says a length above `most`: then it frees what came. If an allocation fails, it skips only unknown
    /// frames.
    #[tactic(auto, using(crate::specs::PeerLaws::peer_waits, crate::proofs::ControlFronts::no_front, crate::proofs::ControlFronts::no_room, crate::proofs::ControlFronts::unknown_passed))]
    fn read_one(
        &mut self,
        alloc: Global,
        side: Side,
        most: u64,
        kinds: FrameKinds,
    ) -> Result<Progress, AllocError>
        ensures ok { IfOk result (λ progress. ReadsOne kinds most side self.old self.new progress) }
        ensures refused { OnErr result (ReadsFront kinds most side self.old self.new) }
        ensures first { self.old.settings ≡ None → IfOk result (λ progress. KeepsEarlier self.old self.new progress) }
        ensures unknown { OnErr result (self.new.settings ≡ self.old.settings) }
    {
        // (not reached: what is announced stays)
        if !self.unread.suits(kinds) {
            return Err(AllocError);
        }
        if self.unread.is_excessive(most, kinds) {
            self.unread = FrameBuffer::new(alloc);
            return Ok(Progress::Ends(Some(Code::H3_EXCESSIVE_LOAD)));
        }
        self.goaways.reserve(1)?;
        self.updates.reserve()?;
        let told = self.others_told(alloc, kinds)?;
        match self.unread.next_frame(alloc, kinds) {
            Ok(None) => Ok(Progress::Ends(None)),
            Ok(Some(frame)) => match self.judge(side, frame) {
                Judged::Settings(settings) => {
                    self.take_settings(settings, told);
                    Ok(Progress::GoesOn)
                }
                Judged::Goaway(id) => {
                    self.goaways.push_reserved(id);
                    Ok(Progress::GoesOn)
                }
                Judged::MaxPushId(id) => {
                    self.most_pushes = Some(id);
                    Ok(Progress::GoesOn)
                }
                Judged::Update(id, priority) => {
                    self.updates.put(id, priority);
                    Ok(Progress::GoesOn)
                }
                Judged::Fault(code) => Ok(Progress::Ends(Some(code))),
            },
            Err(FrameStreamError::Proto(e)) => Ok(Progress::Ends(Some(self.refused(e)))),
            Err(_) => Err(AllocError),
        }
    }

    /// Drops all ids of GOAWAY frames but the last, if that is kept alone. It takes no memory.
    #[tactic(auto, using(crate::proofs::KeptFronts::none_changed))]
    fn keep_goaways(&mut self, last_alone: bool)
        ensures { self.new ≡ kept_peer last_alone self.old }
    {
        if !last_alone {
            return;
        }
        let Some(last) = self.last_goaway() else {
            return;
        };
        self.goaways[0] = last;
        self.goaways.truncate(1);
    }

    /// Reads all whole frames, up to the first fault, and answers that fault. One that says a length above the limit of the choices is a
    /// fault, whether its payload came or not (RFC 9114, section 10.5). If the choices limit the ids that are kept, each GOAWAY frame's
    /// id takes the place of the last. If an allocation fails, the frames that were read stand, and the others stay unread: the next
    /// reading goes on with them, and answers what this one would have.
    #[tactic(auto, using(crate::proofs::KeptFronts::none_kept, crate::proofs::KeptFronts::then_kept, crate::proofs::KeptFronts::all_kept, crate::proofs::KeptFronts::stops_kept))]
    pub fn read(
        &mut self,
        alloc: Global,
        side: Side,
        choices: Choices,
        kinds: FrameKinds,
    ) -> Result<Option<Code>, AllocError>
        ensures ok { IfOk result (λ fault. kept_found (keeps_last choices) (read_peer kinds choices.unfinished_limit side self.old) ≡
            (self.new, fault)) }
        ensures refused { OnErr result (StopsReading kinds (keeps_last choices) choices.unfinished_limit side self.old self.new) }
        ensures front { OnErr result (KeepsOn kinds (keeps_last choices) choices.unfinished_limit side self.old self.new) }
    {
        // (the label names the loop in its proof)
        'frames: loop {
            let progress = self.read_one(alloc, side, choices.unfinished_limit, kinds);
            self.keep_goaways(keeps_last(choices));
            match progress {
                Ok(Progress::Ends(fault)) => return Ok(fault),
                Ok(Progress::GoesOn) => {}
                Err(e) => return Err(e),
            }
        }
    }

    /// Whether the settings came, and the endpoint does not take them.
    fn are_refused(&self, side: Side, own: &Announced) -> bool
        ensures { result ≡ settings_refused side own.now self.now.settings }
    {
        match &self.settings {
            Some(settings) => own.refuses_settings(side, settings),
            None => false,
        }
    }

    /// How many settings of no meaning are kept at most. None is, while the settings have not come.
    fn most_others(&self) -> usize
        ensures { self.now.settings ≡ None → self.now.others ≡ no_others result }
    {
        self.others.most
    }

    /// What came is freed, and the settings of no meaning.
    fn let_go(&mut self, alloc: Global, most_others: usize)
        ensures { self.new ≡ record self.old { unread = []; others = no_others most_others } }
    {
        self.unread = FrameBuffer::new(alloc);
        self.others = OtherSettings::new(alloc, most_others);
    }

    /// The same while the settings have not come. If the endpoint does not take those that come, that is the fault, whatever follows them:
    /// what came after them is freed.
    pub fn read_first(
        &mut self,
        alloc: Global,
        side: Side,
        own: &Announced,
        kinds: FrameKinds,
    ) -> Result<Option<Code>, AllocError>
        requires { self.old.settings ≡ None }
        ensures ok { IfOk result (λ fault. kept_found (keeps_last own.now.choices)
            (found_first side own.now self.old (read_peer kinds own.now.choices.unfinished_limit side self.old)) ≡ (self.new, fault)) }
        ensures refused { OnErr result
            (KeepsPart kinds (keeps_last own.now.choices) own.now.choices.unfinished_limit side self.old self.new) }
        ensures taken { OnErr result (settings_refused side own.now self.new.settings ≡ false) }
    {
        let most_others = self.most_others();
        let progress = self.read_one(alloc, side, own.choices.unfinished_limit, kinds);
        self.keep_goaways(keeps_last(own.choices));
        match progress {
            Ok(Progress::Ends(fault)) => return Ok(fault),
            Ok(Progress::GoesOn) => {}
            Err(e) => return Err(e),
        }
        if self.are_refused(side, own) {
            self.let_go(alloc, most_others);
            return Ok(Some(Code::H3_SETTINGS_ERROR));
        }
        self.read(alloc, side, own.choices, kinds)
    }
}
