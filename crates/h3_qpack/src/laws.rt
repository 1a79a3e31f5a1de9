//! Laws over the definitions.

ghost use Rattle.std.specs.Prelude.{◌≡◌, ◌==◌, ◌&&◌, ◌||◌, nat_lt, ℕ, ◌+◌, ◌-◌, ◌*◌, ◌%◌, ◌^◌, ◌<◌, ◌≤◌, ◌∷◌, Bool, true, false, List};
ghost use Rattle.std.specs.Prelude.{Option, Some, option_map};
ghost use Rattle.h3_field.specs.Field.{Field, section_size};
ghost use Rattle.h3_field.specs.ReadBack.{IsFieldOfBytes};
ghost use Rattle.h3_field.specs.Section.{section_bytes};
ghost use Rattle.h3_field.specs.Instruction.DecoderInstruction.{Acknowledge, CancelStream, Increment};
ghost use Rattle.h3_table.specs.Table.{table};
ghost use Rattle.std.specs.Prelude.{take, length, [], ◌++◌};
ghost use Rattle.h3_qpack.specs.DecoderState.{DecoderState, announcing, checking, decoder_after_all};
ghost use Rattle.std.specs.Prelude.{flat_map, map, max};
ghost use Rattle.std.specs.List.{AllByRecursion};
ghost use Rattle.h3_field.specs.Instruction.{EncoderInstruction, encoder_bytes, DecoderInstruction, decoder_bytes};
ghost use Rattle.h3_field.specs.InstructionAnswer.{IsReply};
ghost use Rattle.h3_field.specs.InstructionReading.{instruction, decoder_instruction};
ghost use Rattle.h3_field.specs.Reading.{Unfinished};
ghost use Rattle.h3_qpack.specs.WholeInstructions.{whole_in, rest_in, decoder_instructions_in};
ghost use Rattle.h3_qpack.specs.Instructions.{HasRead, AreInstructions, AreDecoderInstructions, AreAccepted};
ghost use Rattle.h3_qpack.specs.TableHistory.{IsReadAs, table_after_all, table_of};
ghost use Rattle.h3_qpack.specs.Meaning.{MeansFields, IsMissing, is_allowed, table_for};
ghost use Rattle.h3_qpack.specs.DecodedSection.{DecodedSection, decode_section, IsDecodedAs};
ghost use Rattle.h3_qpack.specs.Hearing.{Heard, heard, hear, heard_then, IsHeardAs, Listened, listened, listen, listened_then};
ghost use Rattle.h3_qpack.specs.Hearing.{IsListenedAs};
ghost use Rattle.h3_field.specs.Secret.{is_secret};
ghost use Rattle.h3_field.specs.StringLiteral.{coded, huffman_text};
ghost use Rattle.h3_qpack.specs.StaticSections.{static_section};
ghost use Rattle.h3_qpack.specs.SectionEncoding.{Draft, guarded_fields, draft_of, encoded_section, finds_room, found, having_inserted};
ghost use Rattle.h3_qpack.specs.SectionEncoding.{held, instructions_for, is_insertable, is_insertable_ahead, marks_after};
ghost use Rattle.h3_qpack.specs.SectionEncoding.{required_insert_count, sent_section};
ghost use Rattle.h3_field.specs.Line.{FieldLine, line_bytes};
ghost use Rattle.h3_qpack.specs.Secrets.{MayBeIndexed, has_bit_n, without_secrets, line_without_secret};
ghost use Rattle.h3_qpack.specs.SectionSizes.{most_encoded};
ghost use Rattle.h3_qpack.specs.InstructionSizes.{most_instruction};
ghost use Rattle.h3_qpack.specs.Encodings.{decoder_of, HasInsertions, IsDecoderAt, IsWritten, IsWrittenInstruction, tried};
ghost use Rattle.h3_field.specs.Prefix.{most_entries, IsRequiredCount};
ghost use Rattle.h3_field.specs.PrefixReading.{EncodedPrefix};
ghost use Rattle.h3_qpack.specs.NamedFields.{entry_number};
ghost use Rattle.h3_qpack.specs.Session.{Session, UndecodedSection, oldest, is_canceled, count_of, tracked_references, IsSound, DecodesTo};
ghost use Rattle.h3_qpack.specs.Schedule.{SessionEvent, SessionRun, beginning};
ghost use Rattle.std.specs.Ordering.{nat_cmp};
ghost use Rattle.std.specs.BTreeSet.{insert_key};
ghost use Rattle.h3_table.specs.Cancellations.{Cancellations, KeepsAll, with_canceled};
ghost use Rattle.h3_qpack.specs.EncoderHistory.{EncoderHistory, HasNoTable, no_choices, blocks_out, encoder_after, encoder_after_all};
ghost use Rattle.h3_qpack.specs.EncoderHistory.{was_canceled, withdrawn, writing_on};
ghost use Rattle.h3_qpack.specs.EncoderState.{encoder_state};
ghost use Rattle.h3_qpack.specs.Exchange.{ExchangeHistory, Exchange, start, opening};
ghost use Rattle.h3_qpack.specs.Expected.{Expected};
ghost use Rattle.h3_qpack.specs.declared.session.SessionEvent.{SessionEvent as RunEvent};
ghost use Rattle.h3_qpack.specs.declared.session.SessionAnswer.{SessionAnswer};

/// A table holds entries whose sizes sum to at most its capacity.
pub fn no_table_passes_its_capacity()
    ensures { (capacity : ℕ) (inserted : List Field) → section_size (table capacity inserted) ≤ capacity }
{}

/// The bits N of a section's lines are the flags of its fields, one after the other, and a line of an entry has none. If the encoder guards
/// secrets, each field that is known to be one has its bit too. So each never-indexed field, and each guarded secret, is a literal with
/// that bit (RFC 9204, section 4.5.4). None is inserted (section 7.1.3).
pub fn never_indexed_fields_are_literals()
    ensures bits { (s : EncoderHistory) (fields : List Field)
        → map has_bit_n (draft_of s fields).lines ≡ map (λ f. f.never_indexed || (s.choices.guards_secrets && is_secret f)) fields }
    ensures inserted { (s : EncoderHistory) (fields : List Field) → AllByRecursion MayBeIndexed s.inserted
        → AllByRecursion MayBeIndexed (draft_of s fields).inserted }
{}

/// Nothing that an encoder inserts, names or keeps rests on the value of a never-indexed field, or of a secret that it guards. If two lists
/// of fields differ in such values alone, their instructions are equal, and so is the encoder after them, with all that it writes later.
/// The two sections differ in the literal values of those fields alone, and in how these are coded. So no instruction and no later section
/// tells of a secret (RFC 9204, section 7.1.3).
pub fn secrets_leave_no_trace()
    ensures instructions { (s : EncoderHistory) (fields others : List Field) → without_secrets s fields ≡ without_secrets s others
        → instructions_for s fields ≡ instructions_for s others }
    ensures count { (s : EncoderHistory) (fields others : List Field) → without_secrets s fields ≡ without_secrets s others →
        required_insert_count (draft_of s fields) ≡ required_insert_count (draft_of s others) }
    ensures lines { (s : EncoderHistory) (fields others : List Field) → without_secrets s fields ≡ without_secrets s others →
        map line_without_secret (draft_of s fields).lines ≡ map line_without_secret (draft_of s others).lines }
    ensures sent { (s : EncoderHistory) (stream : ℕ) (fields others : List Field) → without_secrets s fields ≡ without_secrets s others
        → sent_section s stream fields ≡ sent_section s stream others }
    ensures inserted { (s : EncoderHistory) (stream : ℕ) (fields others : List Field)
        → without_secrets s fields ≡ without_secrets s others →
        having_inserted s stream fields ≡ having_inserted s stream others }
{}

/// An encoder that guards no secrets takes the fields as they are, and one that does not choose the shortest strings writes each Huffman
/// coded. What it chooses is the same on every stream, but that it is not economical on one that was canceled. If nothing is chosen a
/// section that names no entry is that of `encode_stateless`.
pub fn choices_change_what_they_say()
    ensures fields { (s : EncoderHistory) (fields : List Field) → s.choices.guards_secrets ≡ false → guarded_fields s fields ≡ fields }
    ensures strings { (bytes : List ℕ) → coded false bytes ≡ huffman_text bytes }
    ensures guarded { (s : EncoderHistory) (stream : ℕ) (fields : List Field)
        → guarded_fields (writing_on s stream) fields ≡ guarded_fields s fields }
    ensures stateless { (fields : List Field) → static_section no_choices fields ≡ section_bytes fields }
{}

/// A section on a stream whose cancellation was read names no entry, and nothing is inserted for it. Its bytes are those of static
/// lines and literals with static or literal names, with the strings and the flags that the encoder chose.
pub fn canceled_streams_use_no_table()
    ensures bytes { (s : EncoderHistory) (stream : ℕ) (fields : List Field) → was_canceled s stream ≡ true
        → encoded_section (writing_on s stream) fields ≡ static_section s.choices fields }
    ensures names { (s : EncoderHistory) (stream : ℕ) (fields : List Field) → was_canceled s stream ≡ true
        → (draft_of (writing_on s stream) fields).references ≡ [] }
    ensures inserts { (s : EncoderHistory) (stream : ℕ) (fields : List Field) → was_canceled s stream ≡ true
        → instructions_for (writing_on s stream) fields ≡ [] }
    ensures same { (s : EncoderHistory) (stream : ℕ) (fields : List Field) → was_canceled s stream ≡ true
        → encoder_state (sent_section s stream fields) ≡ encoder_state s }
{}

/// An encoder without a table that has inserted nothing names no entry and inserts nothing, whether it is economical or not: so a table
/// may come into use later.
pub fn encoders_without_insertions_use_no_table()
    ensures bytes { (s : EncoderHistory) (stream : ℕ) (fields : List Field) → HasNoTable s → s.inserted ≡ []
        → encoded_section (writing_on s stream) fields ≡ static_section s.choices fields }
    ensures inserts { (s : EncoderHistory) (stream : ℕ) (fields : List Field) → HasNoTable s → s.inserted ≡ []
        → instructions_for (writing_on s stream) fields ≡ [] }
    ensures still { (s : EncoderHistory) (stream : ℕ) (fields : List Field) → HasNoTable s → s.inserted ≡ []
        → (sent_section s stream fields).inserted ≡ [] }
{}

/// An encoder that is not economical and has inserted nothing names no entry and inserts nothing if no section may be blocked, whatever its
/// capacity (RFC 9204, section 2.1.2).
pub fn plain_encoders_of_limit_zero_use_no_table()
    ensures bytes { (s : EncoderHistory) (stream : ℕ) (fields : List Field) → s.limit ≡ 0 → s.choices.economical ≡ false → s.inserted ≡ []
        → encoded_section (writing_on s stream) fields ≡ static_section s.choices fields }
    ensures inserts { (s : EncoderHistory) (stream : ℕ) (fields : List Field) → s.limit ≡ 0 → s.choices.economical ≡ false → s.inserted ≡ []
        → instructions_for (writing_on s stream) fields ≡ [] }
    ensures still { (s : EncoderHistory) (stream : ℕ) (fields : List Field) → s.limit ≡ 0 → s.choices.economical ≡ false → s.inserted ≡ []
        → (sent_section s stream fields).inserted ≡ [] }
{}

/// An encoder that is not economical goes by its table alone. It names the newest equal entry that it may, and inserts whatever there is
/// room for if one more section may be blocked. It inserts nothing ahead, and leaves no mark.
pub fn plain_encoders_go_by_their_table()
    ensures names { (s : EncoderHistory) (d : Draft) (f : Field) → s.choices.economical ≡ false → found s d f ≡ held s d f }
    ensures inserts { (s : EncoderHistory) (d : Draft) (f : Field) → s.choices.economical ≡ false
        → is_insertable s d f ≡ (nat_lt (blocks_out s) s.limit && finds_room s d f) }
    ensures ahead { (s : EncoderHistory) (marks : List ℕ) (d : Draft) (f : Field) → s.choices.economical ≡ false
        → is_insertable_ahead s marks d f ≡ false }
    ensures marks { (s : EncoderHistory) (lines : List FieldLine) → s.choices.economical ≡ false → marks_after s lines ≡ s.marks }
{}

/// A stream counts as canceled once its cancellation was read, and over every schedule it does from then on, however many are kept. At
/// most so many are kept as are to be.
pub fn cancellations_are_kept()
    ensures canceled { (s : EncoderHistory) (stream : ℕ) → was_canceled (encoder_after s (CancelStream stream)) stream ≡ true }
    ensures stays { (counts : Bool) (most announced limit : ℕ) (events : List SessionEvent) (s : Session) (i : DecoderInstruction)
        (stream : ℕ) → SessionRun (beginning counts most announced limit) events s →
        was_canceled s.encoder stream ≡ true → was_canceled (encoder_after s.encoder i) stream ≡ true }
    ensures counted { (s : EncoderHistory) (count other : ℕ)
        → was_canceled (encoder_after s (Increment count)) other ≡ was_canceled s other }
    ensures sent { (s : EncoderHistory) (stream other : ℕ) (fields : List Field)
        → was_canceled (sent_section s stream fields) other ≡ was_canceled s other }
    ensures few { (s : EncoderHistory) (i : DecoderInstruction) (most : ℕ) → s.canceled.most ≡ Some most → length s.canceled.kept ≤ most →
        ((encoder_after s i).canceled.most ≡ Some most) × (length (encoder_after s i).canceled.kept ≤ most) }
{}

/// If all are kept, a stream counts as canceled only once its cancellation was read.
pub fn all_cancellations_are_kept()
    ensures canceled { (s : EncoderHistory) (stream other : ℕ) → KeepsAll s.canceled
        → was_canceled (encoder_after s (CancelStream stream)) other ≡ ((stream == other) || was_canceled s other) }
    ensures acknowledged { (s : EncoderHistory) (stream other : ℕ) → KeepsAll s.canceled
        → was_canceled (encoder_after s (Acknowledge stream)) other ≡ was_canceled s other }
    ensures stays { (s : EncoderHistory) (i : DecoderInstruction) → KeepsAll s.canceled → KeepsAll (encoder_after s i).canceled }
    ensures kept { (c : Cancellations) (stream : ℕ) → KeepsAll c
        → with_canceled c stream ≡ record c { kept = insert_key nat_cmp c.kept stream } }
{}

/// Over every schedule, no tracked section is of a stream that counts as canceled.
pub fn canceled_streams_are_not_tracked()
    ensures { (counts : Bool) (most announced limit : ℕ) (events : List SessionEvent) (s : Session) (stream : ℕ)
        → SessionRun (beginning counts most announced limit) events s → was_canceled s.encoder stream ≡ true →
        tracked_references stream s.encoder.tracked ≡ [] }
{}

/// Over every schedule, whether acknowledgments count or not, however small the encoder's table is to be, and whatever it
/// chooses and whenever, what is under way fits what both ends have.
pub fn every_session_is_sound()
    ensures { (counts : Bool) (most announced limit : ℕ) (events : List SessionEvent) (s : Session)
        → SessionRun (beginning counts most announced limit) events s → IsSound s }
{}

/// Over every schedule, an acknowledgment that is read tells of no insertion that no increment told of before. What is known to be received
/// is the same whether acknowledgments count or not, and so is each section that is written then.
pub fn acknowledgments_tell_nothing_new()
    ensures known { (counts : Bool) (most announced limit : ℕ) (events : List SessionEvent) (s : Session) (stream : ℕ)
        (rest : List DecoderInstruction) → SessionRun (beginning counts most announced limit) events s →
        s.decoder_instructions ≡ Acknowledge stream ∷ rest
        → (encoder_after s.encoder (Acknowledge stream)).known_received ≡ s.encoder.known_received }
    ensures bytes { (s : EncoderHistory) (counts : Bool) (stream : ℕ) (fields : List Field)
        → encoded_section (writing_on (record s { counts_acknowledgments = counts }) stream) fields ≡ encoded_section
        (writing_on s stream) fields }
    ensures instructions { (s : EncoderHistory) (counts : Bool) (stream : ℕ) (fields : List Field)
        → instructions_for (writing_on (record s { counts_acknowledgments = counts }) stream) fields ≡ instructions_for
        (writing_on s stream) fields }
{}

/// Over every schedule, a section that is tried once its insertions came decodes to its fields, and its encoded count is
/// read as its count whenever it is tried.
pub fn every_section_decodes()
    ensures fields { (counts : Bool) (most announced limit : ℕ) (events : List SessionEvent) (s : Session) (b : UndecodedSection)
        → SessionRun (beginning counts most announced limit) events s →
        oldest b.stream s.sections ≡ Some b → is_canceled s b.stream ≡ false → count_of b ≤ s.received → DecodesTo s b }
    ensures count { (counts : Bool) (most announced limit : ℕ) (events : List SessionEvent) (s : Session) (b : UndecodedSection)
        → SessionRun (beginning counts most announced limit) events s →
        oldest b.stream s.sections ≡ Some b → is_canceled s b.stream ≡ false → 0 < count_of b →
        IsRequiredCount s.encoder.announced s.received (count_of b % (2 * most_entries s.encoder.announced) + 1) (count_of b) }
{}

/// Over every schedule, the encoding of a section means the section's fields to a decoder that has read its insertions: with the flags that
/// the encoder set, if it guards secrets, and else as they are. Before that it is missing exactly so many, and is never bad. The decoder
/// announced the capacity that the encoder goes by, or any other while the encoder has inserted nothing, as before the peer's settings
/// came. Whether it checks counts does not matter.
pub fn every_encoding_means_its_fields()
    ensures means { (checks counts : Bool) (most announced limit : ℕ) (events : List SessionEvent) (s : Session) (b : UndecodedSection)
        → SessionRun (beginning counts most announced limit) events s →
        oldest b.stream s.sections ≡ Some b → is_canceled s b.stream ≡ false → count_of b ≤ s.received → IsWritten s b →
        MeansFields (checking checks (decoder_of s)) (encoded_section b.encoder b.fields) (count_of b) (guarded_fields b.encoder b.fields) }
    ensures value { (counts : Bool) (most announced limit other : ℕ) (events : List SessionEvent) (s : Session) (b : UndecodedSection)
        (r : DecoderState) → SessionRun (beginning counts most announced limit) events s → IsDecoderAt other s r →
        oldest b.stream s.sections ≡ Some b → is_canceled s b.stream ≡ false → IsWritten s b →
        decode_section r (encoded_section b.encoder b.fields) ≡ tried s b }
{}

/// Over every schedule, the section that a stream decodes next is what a writer took, if its fields are of bytes and its encoding is
/// not longer than memory holds.
pub fn every_section_is_written()
    ensures { (counts : Bool) (most announced limit : ℕ) (events : List SessionEvent) (s : Session) (b : UndecodedSection)
        → SessionRun (beginning counts most announced limit) events s → oldest b.stream s.sections ≡ Some b →
        AllByRecursion IsFieldOfBytes b.fields → section_size b.fields < 2 ^ 62 → length (encoded_section b.encoder b.fields) < 2 ^ 63
        → IsWritten s b }
{}

/// A decoder that announced a capacity refuses no instruction of an encoder that set that capacity or a smaller one. After any number of
/// them it has read as many insertions, without the instruction that sets the capacity, and holds what of them fits.
pub fn written_instructions_are_accepted()
    ensures { (checks : Bool) (announced capacity : ℕ) (instructions : List EncoderInstruction) (inserted : List Field) (k : ℕ)
        → capacity ≤ announced → IsReadAs announced capacity instructions inserted → k ≤ length (opening capacity ++ instructions) →
        (r : DecoderState)
        × (decoder_after_all (Some (checking checks (announcing announced))) (take k (opening capacity ++ instructions)) ≡ Some r)
        × HasInsertions announced capacity (take (k - length (opening capacity)) inserted) r }
{}

/// A section that is withdrawn as soon as it was written leaves what one leaves that ended early: its insertions and its marks. Of the
/// required insert counts that an encoder keeps, a section that was sent adds its own, and no decoder instruction takes one away.
pub fn sections_leave_their_counts()
    ensures withdrawn { (s : EncoderHistory) (stream : ℕ) (fields : List Field) →
        withdrawn (sent_section s stream fields) stream (required_insert_count (draft_of (writing_on s stream) fields))
        ≡ having_inserted s stream fields }
    ensures sent { (s : EncoderHistory) (stream : ℕ) (fields : List Field) →
        (sent_section s stream fields).required_insert_counts ≡ s.required_insert_counts ++ required_insert_count
        (draft_of (writing_on s stream) fields) ∷ [] }
    ensures read { (s : EncoderHistory) (i : DecoderInstruction) → (encoder_after s i).required_insert_counts ≡ s.required_insert_counts }
{}

/// The lines of a section that an encoder writes name no entry above the section's required insert count, which is the greatest that they
/// name (RFC 9204, section 2.1.2). If they name none it is 0, and the prefix is two bytes 0, as without a table.
pub fn sections_stay_within_their_counts()
    ensures lines { (s : EncoderHistory) (fields : List Field)
        → AllByRecursion (λ line. entry_number (length s.inserted) line ≤ required_insert_count (draft_of s fields))
        (draft_of s fields).lines }
    ensures prefix { (s : EncoderHistory) (fields : List Field) → required_insert_count (draft_of s fields) ≡ 0
        → encoded_section s fields ≡ 0 ∷ 0 ∷ flat_map line_bytes (draft_of s fields).lines }
{}

/// A decoder that checks no counts reads the lines of a section over its whole table, and without a table takes any prefix. One that checks
/// them takes no section in another meaning, and reads instructions alike.
pub fn counts_are_checked_if_asked()
    ensures table { (r : DecoderState) (count : ℕ) → r.checks_count ≡ false → table_for r count ≡ r.table }
    ensures prefix { (r : DecoderState) (p : EncodedPrefix) → r.checks_count ≡ false → is_allowed r p ≡ true }
    ensures fields { (r : DecoderState) (bytes : List ℕ) (count : ℕ) (fields : List Field)
        → MeansFields (checking true r) bytes count fields → MeansFields (checking false r) bytes count fields }
    ensures missing { (r : DecoderState) (bytes : List ℕ) (count : ℕ) → IsMissing (checking true r) bytes count
        → IsMissing (checking false r) bytes count }
    ensures instructions { (checks : Bool) (r : Option DecoderState) (instructions : List EncoderInstruction) →
        decoder_after_all (option_map (checking checks) r) instructions ≡ option_map (checking checks) (decoder_after_all r instructions) }
{}

/// The encoding of a list of fields is no longer than four times the list's size, whatever its encoder did before. That size is the sum of
/// names, values and 32 for each field (RFC 9114, section 4.2.2). The encoding of an empty list takes two bytes. If each string is written
/// in the Huffman code, whose words have up to thirty bits, the encoding may be longer than the list's size. With the shortest strings the
/// lines leave twelve bytes of each field's size.
pub fn encoded_sections_are_short()
    ensures short { (s : EncoderHistory) (fields : List Field) → length (encoded_section s fields) ≤ most_encoded fields }
    ensures empty { (s : EncoderHistory) → length (encoded_section s []) ≡ 2 }
    ensures lines { (s : EncoderHistory) (fields : List Field) → s.choices.shortest_strings ≡ true
        → length (flat_map line_bytes (draft_of s fields).lines) + 12 * length fields ≤ section_size fields }
{}

/// With the shortest strings the encoding of a list of fields is no longer than the list's size (RFC 9114, section 4.2.2), or takes two
/// bytes if the list is empty. So it is for every encoder whose table has a capacity below 2^30, whatever it did before and whatever its
/// decoder announced, and so over every schedule whose decoder announced a capacity below 2^30.
pub fn sections_are_no_longer_than_their_lists()
    ensures history { (s : EncoderHistory) (fields : List Field) → s.choices.shortest_strings ≡ true → s.capacity < 2 ^ 30
        → length (encoded_section s fields) ≤ max 2 (section_size fields) }
    ensures session { (counts : Bool) (most announced limit : ℕ) (events : List SessionEvent) (s : Session) (stream : ℕ)
        (fields : List Field) → SessionRun (beginning counts most announced limit) events s →
        s.encoder.announced < 2 ^ 30 → s.encoder.choices.shortest_strings ≡ true
        → length (encoded_section (writing_on s.encoder stream) fields) ≤ max 2 (section_size fields) }
{}

/// An instruction of an encoder that a decoder takes is written in at most ten bytes, or in four times the capacity that the decoder
/// announced. The strings of an entry that fits it may be written in the Huffman code. An instruction of a decoder is one number, of at
/// most ten bytes (RFC 9204, section 4.1.1).
pub fn instructions_are_short()
    ensures taken { (checks : Bool) (announced : ℕ) (instructions : List EncoderInstruction) (r : DecoderState)
        → decoder_after_all (Some (checking checks (announcing announced))) instructions ≡ Some r →
        AllByRecursion (λ i. length (encoder_bytes i) ≤ most_instruction announced) instructions }
    ensures replies { (i : DecoderInstruction) → length (decoder_bytes i) ≤ 10 }
{}

/// Every run in bytes is a session, and answers what is expected of it. Each decode answers exactly the fields that were encoded, or the
/// count that was answered then, which is above the insertions read. Nothing is refused unless an allocation fails. If the bytes of the
/// first n insertions were read, n insertions were.
pub fn every_run_answers_as_expected()
    ensures { (capacity limit : ℕ) (events : List RunEvent) (answers : List SessionAnswer) (end : ExchangeHistory) → capacity < 2 ^ 30
        → Exchange (start capacity limit) events answers end →
        (s : Session) × Expected (beginning false (2 ^ 30 - 1) capacity limit) events answers s
        × ((n : ℕ) → n ≤ length s.instructions
        → length (flat_map encoder_bytes (opening capacity ++ take n s.instructions)) ≤ end.encoder_stream.read → n ≤ s.received) }
{}

/// After any number of events as expected, the session is sound, and at most the limit of its sections are blocked.
pub fn every_expected_session_is_sound()
    ensures { (counts : Bool) (most announced limit : ℕ) (events : List RunEvent) (answers : List SessionAnswer) (s : Session)
        → Expected (beginning counts most announced limit) events answers s →
        IsSound s × (blocks_out s.encoder ≤ limit) }
{}

/// After any number of the encoder's instructions the table of a decoder, which takes any capacity up to the announced one, is the
/// encoder's after as many insertions.
pub fn tables_agree()
    ensures { (counts : Bool) (most announced limit : ℕ) (events : List SessionEvent) (s : Session) (k : ℕ)
        → SessionRun (beginning counts most announced limit) events s → k ≤ length s.instructions →
        table_after_all s.encoder.announced (Some (table_of s.encoder.capacity [])) (take k s.instructions) ≡ Some
        (table_of s.encoder.capacity (take k s.encoder.inserted)) }
{}

/// What was read of the first bytes is read of all, and then what is left.
pub fn pieces_do_not_matter()
    ensures { (old mid new : DecoderState) (bytes more left rest : List ℕ) → HasRead old mid bytes left
        → HasRead mid new (left ++ more) rest → HasRead old new (bytes ++ more) rest }
{}

/// What an encoder writes is read as its instructions, and what follows is left.
pub fn instructions_read_back()
    ensures { (instructions : List EncoderInstruction) (rest : List ℕ) → AllByRecursion IsWrittenInstruction instructions →
        AreInstructions (flat_map encoder_bytes instructions ++ rest) instructions rest }
{}

/// What an encoded field section is to a decoder is a value: the value says it, and whatever is said of the section is its
/// value.
pub fn sections_are_their_value()
    ensures value { (r : DecoderState) (bytes : List ℕ) → IsDecodedAs r bytes (decode_section r bytes) }
    ensures only { (r : DecoderState) (bytes : List ℕ) (d : DecodedSection) → IsDecodedAs r bytes d → decode_section r bytes ≡ d }
{}

/// A section has one meaning: one list of fields and one required insert count, or one count that is missing.
pub fn sections_have_one_meaning()
    ensures fields { (r : DecoderState) (bytes : List ℕ) (n m : ℕ) (fs gs : List Field) → MeansFields r bytes n fs
        → MeansFields r bytes m gs → (n ≡ m) × (fs ≡ gs) }
    ensures missing { (r : DecoderState) (bytes : List ℕ) (n m : ℕ) → IsMissing r bytes n → IsMissing r bytes m → n ≡ m }
    ensures either { (r : DecoderState) (bytes : List ℕ) (n m : ℕ) (fs : List Field) → MeansFields r bytes n fs → IsMissing r bytes m → ⊥ }
{}

/// What a decoder makes of any bytes of an encoder is a value: the decoder after them, the bytes left, and whether a bad
/// instruction stands there. However the bytes are cut, it is the same.
pub fn encoder_bytes_are_their_value()
    ensures value { (r : DecoderState) (bytes : List ℕ) → IsHeardAs r bytes (hear r bytes) }
    ensures only { (r : DecoderState) (bytes : List ℕ) (h : Heard) → IsHeardAs r bytes h → hear r bytes ≡ h }
    ensures cuts { (r : DecoderState) (bytes more : List ℕ) → hear r (bytes ++ more) ≡ heard_then (hear r bytes) more }
{}

/// What an encoder makes of any bytes of a decoder is a value: the encoder after them, the bytes left, and whether a
/// refused instruction stands there. However the bytes are cut, it is the same.
pub fn decoder_bytes_are_their_value()
    ensures value { (s : EncoderHistory) (bytes : List ℕ) → IsListenedAs s bytes (listen s bytes) }
    ensures only { (s : EncoderHistory) (bytes : List ℕ) (l : Listened) → IsListenedAs s bytes l → listen s bytes ≡ l }
    ensures cuts { (s : EncoderHistory) (bytes more : List ℕ) → listen s (bytes ++ more) ≡ listened_then (listen s bytes) more }
{}

/// The instructions that an encoder writes for a section of bytes can be written. Their indexes and strings are small enough for integers
/// of 62 bits (RFC 9204, section 4.1.1), and each is shorter than memory.
pub fn instructions_can_be_written()
    ensures { (s : EncoderHistory) (stream : ℕ) (fields : List Field) → length s.inserted < 2 ^ 62 → AllByRecursion IsFieldOfBytes fields
        → section_size fields < 2 ^ 56 →
        AllByRecursion IsWrittenInstruction (instructions_for (writing_on s stream) fields) }
{}

/// Of the first bytes of written encoder instructions a decoder that refuses none reads the whole ones, and what came of the
/// next one is left, and is not whole.
pub fn fronts_of_written_instructions()
    ensures instructions { (all : List EncoderInstruction) (n : ℕ) → AllByRecursion IsWrittenInstruction all →
        AreInstructions (take n (flat_map encoder_bytes all)) (take (whole_in encoder_bytes n all) all) (rest_in encoder_bytes n all)
        × (instruction (rest_in encoder_bytes n all) ≡ Unfinished) }
    ensures decoder { (r new : DecoderState) (all : List EncoderInstruction) (n : ℕ) → AllByRecursion IsWrittenInstruction all
        → decoder_after_all (Some r) (take (whole_in encoder_bytes n all) all) ≡ Some new →
        hear r (take n (flat_map encoder_bytes all)) ≡ heard new (rest_in encoder_bytes n all) false }
{}

/// Of the first bytes of written decoder instructions an encoder that refuses none reads the whole ones, and what came of the
/// next one is left, and is not whole. All bytes are read as all instructions.
pub fn fronts_of_written_decoder_instructions()
    ensures instructions { (all : List DecoderInstruction) (n : ℕ) → AllByRecursion IsReply all →
        AreDecoderInstructions (take n (flat_map decoder_bytes all)) (decoder_instructions_in n all) (rest_in decoder_bytes n all)
        × (decoder_instruction (rest_in decoder_bytes n all) ≡ Unfinished) }
    ensures encoder { (s : EncoderHistory) (all : List DecoderInstruction) (n : ℕ) → AllByRecursion IsReply all
        → AreAccepted s (decoder_instructions_in n all) →
        listen s (take n (flat_map decoder_bytes all)) ≡ listened (encoder_after_all s (decoder_instructions_in n all))
        (rest_in decoder_bytes n all) false }
    ensures all { (all : List DecoderInstruction) (rest : List ℕ) → AllByRecursion IsReply all
        → AreDecoderInstructions (flat_map decoder_bytes all ++ rest) all rest }
{}
