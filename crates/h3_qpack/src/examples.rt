//! What the definitions give at values worked out by hand. These functions do nothing: the check computes their contracts.
ghost use Rattle.std.specs.Prelude.{◌≡◌, ◌∷◌, ◌++◌, [], replicate, codes, flat_map};
ghost use Rattle.h3_field.specs.Field.{plain_field, flagged};
ghost use Rattle.h3_field.specs.StringLiteral.{huffman_text};
ghost use Rattle.h3_field.specs.Instruction.{encoder_bytes};
ghost use Rattle.h3_field.specs.Instruction.DecoderInstruction.{CancelStream, Increment};
ghost use Rattle.h3_qpack.specs.EncoderHistory.{no_choices, blocks_out, encoder_after, was_canceled, writing_on};
ghost use Rattle.h3_qpack.specs.Marks.{value_mark};
ghost use Rattle.h3_qpack.specs.SectionEncoding.{draining, guarded_fields, draft_of, encoded_section, instructions_for, sent_section};
ghost use Rattle.std.specs.Prelude.{Some, None, option_map, true, false};
ghost use Rattle.h3_field.specs.Instruction.DecoderInstruction.{Acknowledge};
ghost use Rattle.h3_field.specs.Line.FieldLine.{RelativeField, PostBaseField, Literal};
ghost use Rattle.h3_field.specs.Instruction.EncoderInstruction.{SetCapacity, InsertWithStaticName, InsertWithEntryName, InsertLiteral};
ghost use Rattle.h3_field.specs.Instruction.EncoderInstruction.{Duplicate};
ghost use Rattle.h3_qpack.specs.EncoderHistory.{is_refused, encoder_after_front, withdrawn};
ghost use Rattle.h3_table.specs.Table.{table};
ghost use Rattle.h3_qpack.specs.DecodedSection.{Fields, BadSection};
ghost use Rattle.h3_qpack.specs.DecoderState.{announcing, decoder_after_all};
ghost use Rattle.h3_qpack.specs.Worked.{three, fresh, sample, host_text, path_text, with_header, x_a, x_b, x_a_of, decoded_by};
ghost use Rattle.h3_qpack.specs.Worked.{decoded_without_table, secret_a, secret_sent, older_known, three_canceled, canceled_first};
ghost use Rattle.h3_qpack.specs.Worked.{one_kept, one_waits, one_acknowledged, two_on_a_stream, no_waiting, inserted_ahead, capped};
ghost use Rattle.h3_qpack.specs.Worked.{twice_inserted, empty_b, x_long, two_drain, a_of_two, guarding, short_cookie, long_cookie};
ghost use Rattle.h3_qpack.specs.Worked.{with_shortest};

/// Three requests for the same page: the first inserts two fields, the second names them, and the third may not.
#[tactic(auto, unfolding(h3_field::specs::StaticTable::static_table, h3_field::specs::StaticTable::static_field, h3_field::specs::StaticTable::static_name, h3_huffman::specs::Huffman::huffman, h3_huffman::specs::Huffman::octets, h3_huffman::specs::Huffman::code_word, h3_huffman::specs::Huffman::bits))]
pub fn requests()
    ensures first { encoded_section (fresh 220 2) sample ≡ 3 ∷ 129 ∷ 209 ∷ 215 ∷ 16 ∷ 17 ∷ [] }
    ensures inserts { flat_map encoder_bytes (instructions_for (fresh 220 2) sample) ≡ 192 ∷ host_text ++ 193 ∷ path_text }
    ensures second { encoded_section (sent_section (fresh 220 2) 0 sample) sample ≡ 3 ∷ 0 ∷ 209 ∷ 215 ∷ 129 ∷ 128 ∷ [] }
    ensures third { encoded_section
        (sent_section (sent_section (fresh 220 2) 0 sample) 4 sample) sample ≡ 0 ∷ 0 ∷ 209 ∷ 215 ∷ 80 ∷ host_text ++ 81 ∷ path_text }
{}

/// A small table: after a cancellation the entry stays, and after an increment and an acknowledgment it may go.
#[tactic(auto, unfolding(h3_field::specs::StaticTable::static_table, h3_field::specs::StaticTable::static_field, h3_field::specs::StaticTable::static_name, h3_huffman::specs::Huffman::huffman, h3_huffman::specs::Huffman::octets, h3_huffman::specs::Huffman::code_word, h3_huffman::specs::Huffman::bits))]
pub fn responses()
    ensures first { encoded_section (fresh 64 10) (with_header x_a) ≡ 2 ∷ 128 ∷ 217 ∷ 16 ∷ [] }
    ensures inserts { flat_map encoder_bytes (instructions_for (fresh 64 10) (with_header x_a)) ≡ 99 ∷ 242 ∷ 176 ∷ 255 ∷ 129 ∷ 15 ∷ [] }
    ensures canceled { encoded_section (encoder_after (sent_section (fresh 64 10) 0 (with_header x_a)) (CancelStream 0))
        (with_header x_b) ≡ 0 ∷ 0 ∷ 217 ∷ 43 ∷ 242 ∷ 180 ∷ 127 ∷ 129 ∷ 23 ∷ [] }
{}

/// The newest entry of a name that may be used is not always the newest of the name.
#[tactic(auto, unfolding(h3_field::specs::StaticTable::static_table, h3_field::specs::StaticTable::static_field, h3_field::specs::StaticTable::static_name, h3_huffman::specs::Huffman::huffman, h3_huffman::specs::Huffman::octets, h3_huffman::specs::Huffman::code_word, h3_huffman::specs::Huffman::bits))]
pub fn older_entry()
    ensures { encoded_section older_known (x_a_of (codes "3") ∷ []) ≡ 2 ∷ 1 ∷ 65 ∷ 129 ∷ 103 ∷ [] }
{}

/// A decoder's table: entries that a smaller capacity evicts do not come back, and what is evicted, too large or above the announced
/// capacity is refused.
#[tactic(auto, unfolding(h3_field::specs::StaticTable::static_table, h3_field::specs::StaticTable::static_field, h3_field::specs::StaticTable::static_name, h3_huffman::specs::Huffman::huffman, h3_huffman::specs::Huffman::octets, h3_huffman::specs::Huffman::code_word, h3_huffman::specs::Huffman::bits))]
pub fn decoder()
    ensures two { option_map (λ r. r.table.entries) three ≡ Some (x_a ∷ x_a_of (codes "2") ∷ []) }
    ensures one { option_map (λ r. r.table.entries) (decoder_after_all three (SetCapacity 40 ∷ SetCapacity 100 ∷ [])) ≡ Some
        (x_a_of (codes "2") ∷ []) }
    ensures evicted { decoder_after_all three (SetCapacity 40 ∷ InsertWithEntryName 1 (huffman_text (codes "3")) ∷ []) ≡ None }
    ensures above { decoder_after_all three (SetCapacity 101 ∷ []) ≡ None }
    ensures too_large { decoder_after_all (Some (announcing 220)) (SetCapacity 221 ∷ []) ≡ None }
    ensures early { decoder_after_all (Some (announcing 100)) (InsertWithEntryName 0 (huffman_text []) ∷ []) ≡ None }
{}

/// The required insert count of a section bounds what its lines may name, at a decoder that checks counts. It may be larger than is needed.
/// Without a table the encoded count and the sign are 0 there.
#[tactic(auto, unfolding(h3_field::specs::StaticTable::static_table, h3_field::specs::StaticTable::static_field, h3_field::specs::StaticTable::static_name, h3_huffman::specs::Huffman::huffman, h3_huffman::specs::Huffman::octets, h3_huffman::specs::Huffman::code_word, h3_huffman::specs::Huffman::bits, crate::specs::DecodedSection::decode_section, crate::specs::DecodedSection::fields_in))]
pub fn counts()
    ensures below { decoded_by true (2 ∷ 0 ∷ 128 ∷ []) ≡ Some (Fields (plain_field (codes "a") (codes "b") ∷ []) 1) }
    ensures first { decoded_by true (2 ∷ 128 ∷ 16 ∷ []) ≡ Some (Fields (plain_field (codes "a") (codes "b") ∷ []) 1) }
    ensures second { decoded_by true (3 ∷ 128 ∷ 16 ∷ []) ≡ Some (Fields (plain_field (codes "c") (codes "d") ∷ []) 2) }
    ensures larger { decoded_by true (3 ∷ 0 ∷ 129 ∷ []) ≡ Some (Fields (plain_field (codes "a") (codes "b") ∷ []) 2) }
    ensures at_the_count { decoded_by true (2 ∷ 0 ∷ 16 ∷ []) ≡ Some BadSection }
    ensures name_at_the_count { decoded_by true (2 ∷ 0 ∷ 0 ∷ 0 ∷ []) ≡ Some BadSection }
    ensures none { decoded_by true (0 ∷ 1 ∷ 128 ∷ []) ≡ Some BadSection }
    ensures unchecked { decoded_by false (2 ∷ 0 ∷ 16 ∷ []) ≡ Some (Fields (plain_field (codes "c") (codes "d") ∷ []) 1) }
    ensures count_alone { decoded_without_table true (1 ∷ 0 ∷ 209 ∷ []) ≡ BadSection }
    ensures sign_alone { decoded_without_table true (0 ∷ 128 ∷ 209 ∷ []) ≡ BadSection }
    ensures base_alone { decoded_without_table true (0 ∷ 5 ∷ 209 ∷ []) ≡ Fields (plain_field (codes ":method") (codes "GET") ∷ []) 0 }
    ensures any_count { decoded_without_table false (1 ∷ 0 ∷ 209 ∷ []) ≡ Fields (plain_field (codes ":method") (codes "GET") ∷ []) 0 }
    ensures any_sign { decoded_without_table false (0 ∷ 128 ∷ 209 ∷ []) ≡ Fields (plain_field (codes ":method") (codes "GET") ∷ []) 0 }
{}

/// An acknowledgment needs a tracked section, and what follows a refused one is left.
#[tactic(auto, unfolding(h3_field::specs::StaticTable::static_table, h3_field::specs::StaticTable::static_field, h3_field::specs::StaticTable::static_name, h3_huffman::specs::Huffman::huffman, h3_huffman::specs::Huffman::octets, h3_huffman::specs::Huffman::code_word, h3_huffman::specs::Huffman::bits))]
pub fn refusals()
    ensures none { is_refused (fresh 64 10) (Acknowledge 0) ≡ true }
    ensures tracked { is_refused (sent_section (fresh 64 10) 0 (with_header x_a)) (Acknowledge 0) ≡ false }
    ensures front { (encoder_after_front (fresh 64 10) (Increment 1 ∷ Acknowledge 0 ∷ Increment 1 ∷ [])).1 ≡ Acknowledge 0 ∷ Increment
        1 ∷ [] }
    ensures known { (encoder_after_front (fresh 64 10) (Increment 1 ∷ Acknowledge 0 ∷ Increment 1 ∷ [])).0.known_received ≡ 1 }
{}

/// A section that is withdrawn leaves its insertions and nothing else.
#[tactic(auto, unfolding(h3_field::specs::StaticTable::static_table, h3_field::specs::StaticTable::static_field, h3_field::specs::StaticTable::static_name, h3_huffman::specs::Huffman::huffman, h3_huffman::specs::Huffman::octets, h3_huffman::specs::Huffman::code_word, h3_huffman::specs::Huffman::bits))]
pub fn withdrawal()
    ensures tracked { (withdrawn (sent_section (fresh 64 10) 0 (with_header x_a)) 0 1).tracked ≡ [] }
    ensures counts { (withdrawn (sent_section (fresh 64 10) 0 (with_header x_a)) 0 1).required_insert_counts ≡ [] }
    ensures inserted { (withdrawn (sent_section (fresh 64 10) 0 (with_header x_a)) 0 1).inserted ≡ x_a ∷ [] }
{}

/// A cancellation releases all sections of its stream, and what is written on it later names no entry.
#[tactic(auto, unfolding(h3_field::specs::StaticTable::static_table, h3_field::specs::StaticTable::static_field, h3_field::specs::StaticTable::static_name, h3_huffman::specs::Huffman::huffman, h3_huffman::specs::Huffman::octets, h3_huffman::specs::Huffman::code_word, h3_huffman::specs::Huffman::bits))]
pub fn cancellations()
    ensures released { encoded_section (writing_on three_canceled 4) (with_header x_b) ≡ 3 ∷ 128 ∷ 217 ∷ 16 ∷ [] }
    ensures canceled { encoded_section (writing_on canceled_first 0)
        (with_header x_a) ≡ 0 ∷ 0 ∷ 217 ∷ 43 ∷ 242 ∷ 176 ∷ 255 ∷ 129 ∷ 15 ∷ [] }
    ensures other { encoded_section (writing_on canceled_first 4) (with_header x_a) ≡ 2 ∷ 128 ∷ 217 ∷ 16 ∷ [] }
{}

/// If one canceled stream is kept, the least of two is forgotten. Up to it each stream counts as canceled, unless a section of it is
/// tracked. One that is canceled again is not kept again.
#[tactic(auto, unfolding(h3_field::specs::StaticTable::static_table, h3_field::specs::StaticTable::static_field, h3_field::specs::StaticTable::static_name, h3_huffman::specs::Huffman::huffman, h3_huffman::specs::Huffman::octets, h3_huffman::specs::Huffman::code_word, h3_huffman::specs::Huffman::bits))]
pub fn kept_cancellations()
    ensures kept { one_kept.canceled ≡ record { kept = 8 ∷ []; most = Some 1; below = 5 } }
    ensures again { (encoder_after one_kept (CancelStream 4)).canceled ≡ one_kept.canceled }
    ensures greatest { was_canceled one_kept 8 ≡ true }
    ensures least { was_canceled one_kept 4 ≡ true }
    ensures below { was_canceled one_kept 1 ≡ true }
    ensures between { was_canceled one_kept 5 ≡ false }
    ensures above { was_canceled one_kept 12 ≡ false }
    ensures tracked { was_canceled one_kept 0 ≡ false }
    ensures released { was_canceled (encoder_after one_kept (Acknowledge 0)) 0 ≡ true }
    ensures sections { encoded_section (writing_on one_kept 1) (with_header x_a) ≡ 0 ∷ 0 ∷ 217 ∷ 43 ∷ 242 ∷ 176 ∷ 255 ∷ 129 ∷ 15 ∷ [] }
{}

/// A decoder acknowledges a section and leaves the increment out. If acknowledgments count, the next section with the same field is an
/// indexed line and need not wait; else it has a literal, since no further section may wait.
#[tactic(auto, unfolding(h3_field::specs::StaticTable::static_table, h3_field::specs::StaticTable::static_field, h3_field::specs::StaticTable::static_name, h3_huffman::specs::Huffman::huffman, h3_huffman::specs::Huffman::octets, h3_huffman::specs::Huffman::code_word, h3_huffman::specs::Huffman::bits))]
pub fn no_increments()
    ensures counted { encoded_section (one_acknowledged true) (with_header x_a) ≡ 2 ∷ 0 ∷ 217 ∷ 128 ∷ [] }
    ensures waits { blocks_out (sent_section (one_acknowledged true) 4 (with_header x_a)) ≡ 0 }
    ensures uncounted { encoded_section (one_acknowledged false) (with_header x_a) ≡ 0 ∷ 0 ∷ 217 ∷ 43 ∷ 242 ∷ 176 ∷ 255 ∷ 129 ∷ 15 ∷ [] }
{}

/// An acknowledgment is of the oldest section of its stream, and increments count on from there.
#[tactic(auto, unfolding(h3_field::specs::StaticTable::static_table, h3_field::specs::StaticTable::static_field, h3_field::specs::StaticTable::static_name, h3_huffman::specs::Huffman::huffman, h3_huffman::specs::Huffman::octets, h3_huffman::specs::Huffman::code_word, h3_huffman::specs::Huffman::bits))]
pub fn oldest_acknowledged()
    ensures first { (encoder_after (two_on_a_stream true) (Acknowledge 0)).known_received ≡ 1 }
    ensures both { (encoder_after (encoder_after (two_on_a_stream true) (Acknowledge 0)) (Acknowledge 0)).known_received ≡ 2 }
    ensures further { (encoder_after (encoder_after (two_on_a_stream true) (Acknowledge 0)) (Increment 1)).known_received ≡ 2 }
    ensures uncounted { (encoder_after (two_on_a_stream false) (Acknowledge 0)).known_received ≡ 0 }
{}

/// If acknowledgments count, an increment that is 0 or past what was inserted is refused. Else each is taken.
#[tactic(auto, unfolding(h3_field::specs::StaticTable::static_table, h3_field::specs::StaticTable::static_field, h3_field::specs::StaticTable::static_name, h3_huffman::specs::Huffman::huffman, h3_huffman::specs::Huffman::octets, h3_huffman::specs::Huffman::code_word, h3_huffman::specs::Huffman::bits))]
pub fn increments()
    ensures none { is_refused (one_waits true) (Increment 0) ≡ true }
    ensures past { is_refused (one_waits true) (Increment 2) ≡ true }
    ensures right { is_refused (one_waits true) (Increment 1) ≡ false }
    ensures twice { (encoder_after_front (one_waits true) (Acknowledge 0 ∷ Increment 1 ∷ [])).1 ≡ Increment 1 ∷ [] }
    ensures untracked { is_refused (one_acknowledged true) (Acknowledge 0) ≡ true }
    ensures uncounted { (encoder_after_front (one_waits false) (Increment 0 ∷ Increment 2 ∷ [])).1 ≡ [] }
{}

/// A table of at most 40 bytes has one entry at a time. Its encoded counts go by the capacity that was announced (RFC 9204, section
/// 4.5.1.1), and with 0 nothing is inserted.
#[tactic(auto, unfolding(h3_field::specs::StaticTable::static_table, h3_field::specs::StaticTable::static_field, h3_field::specs::StaticTable::static_name, h3_huffman::specs::Huffman::huffman, h3_huffman::specs::Huffman::octets, h3_huffman::specs::Huffman::code_word, h3_huffman::specs::Huffman::bits))]
pub fn capped_tables()
    ensures lesser { (capped 40 4096).capacity ≡ 40 }
    ensures greater { (capped 4096 40).capacity ≡ 40 }
    ensures one { table (twice_inserted (capped 40 4096)).capacity (twice_inserted (capped 40 4096)).inserted ≡ x_b ∷ [] }
    ensures announced { encoded_section (twice_inserted (capped 40 4096)) (with_header x_a) ≡ 4 ∷ 128 ∷ 217 ∷ 16 ∷ [] }
    ensures whole { encoded_section (twice_inserted (capped 4096 40)) (with_header x_a) ≡ 2 ∷ 128 ∷ 217 ∷ 16 ∷ [] }
    ensures none { instructions_for (capped 0 4096) (with_header x_a) ≡ [] }
{}

/// No section may wait. An economical encoder writes a literal and inserts the field after it, once; it names the entry when it is known to
/// be received. For the first field of a name an entry goes, and for another value of a name none does. An encoder that is not economical
/// never inserts there.
#[tactic(auto, unfolding(h3_field::specs::StaticTable::static_table, h3_field::specs::StaticTable::static_field, h3_field::specs::StaticTable::static_name, h3_huffman::specs::Huffman::huffman, h3_huffman::specs::Huffman::octets, h3_huffman::specs::Huffman::code_word, h3_huffman::specs::Huffman::bits))]
pub fn economical_tables()
    ensures first { encoded_section (no_waiting 64) (with_header x_a) ≡ 0 ∷ 0 ∷ 217 ∷ 43 ∷ 242 ∷ 176 ∷ 255 ∷ 129 ∷ 15 ∷ [] }
    ensures inserts { flat_map encoder_bytes (instructions_for (no_waiting 64) (with_header x_a)) ≡ 99 ∷ 242 ∷ 176 ∷ 255 ∷ 129 ∷ 15 ∷ [] }
    ensures unknown { encoded_section (inserted_ahead 64) (with_header x_a) ≡ 0 ∷ 0 ∷ 217 ∷ 43 ∷ 242 ∷ 176 ∷ 255 ∷ 129 ∷ 15 ∷ [] }
    ensures once { instructions_for (inserted_ahead 64) (with_header x_a) ≡ [] }
    ensures known { encoded_section (encoder_after (inserted_ahead 64) (Increment 1)) (with_header x_a) ≡ 2 ∷ 0 ∷ 217 ∷ 128 ∷ [] }
    ensures first_of_name { instructions_for (encoder_after (inserted_ahead 64) (Increment 1)) (with_header x_b) ≡ InsertLiteral
        (huffman_text (codes "x-b")) (huffman_text (codes "2")) ∷ [] }
    ensures spared { instructions_for (encoder_after (inserted_ahead 64) (Increment 1)) (x_a_of (codes "2") ∷ []) ≡ [] }
    ensures other { instructions_for (fresh 64 0) (with_header x_a) ≡ [] }
{}

/// An economical encoder names no entry that drains: it inserts such a field again as a copy, and names what lasts. Another value of a name
/// that is there is inserted only when it comes a second time. An encoder that is not economical names what is there.
#[tactic(auto, unfolding(h3_field::specs::StaticTable::static_table, h3_field::specs::StaticTable::static_field, h3_field::specs::StaticTable::static_name, h3_huffman::specs::Huffman::huffman, h3_huffman::specs::Huffman::octets, h3_huffman::specs::Huffman::code_word, h3_huffman::specs::Huffman::bits))]
pub fn draining_tables()
    ensures drain { draining two_drain ≡ 2 }
    ensures renewed { instructions_for two_drain (empty_b ∷ []) ≡ Duplicate 1 ∷ [] }
    ensures new_entry { (draft_of two_drain (empty_b ∷ [])).lines ≡ PostBaseField 0 ∷ [] }
    ensures lasts { (draft_of two_drain (x_long ∷ [])).lines ≡ RelativeField 0 ∷ [] }
    ensures spared { instructions_for two_drain (a_of_two ∷ []) ≡ [] }
    ensures literal { (draft_of two_drain (a_of_two ∷ [])).lines ≡ Literal (huffman_text (codes "a"))
        (huffman_text (codes "2")) false ∷ [] }
    ensures second_time { instructions_for (sent_section two_drain 12 (a_of_two ∷ [])) (a_of_two ∷ []) ≡ InsertLiteral
        (huffman_text (codes "a")) (huffman_text (codes "2")) ∷ [] }
    ensures plain { (draft_of (record two_drain { choices = no_choices }) (empty_b ∷ [])).lines ≡ RelativeField 1 ∷ [] }
{}

/// A never-indexed field is a literal with the bit N, whatever a table has, and leaves no trace. A second section with it is like the
/// first, and the same field without the flag is then inserted as if it were new. Its name may be that of an entry.
#[tactic(auto, unfolding(h3_field::specs::StaticTable::static_table, h3_field::specs::StaticTable::static_field, h3_field::specs::StaticTable::static_name, h3_huffman::specs::Huffman::huffman, h3_huffman::specs::Huffman::octets, h3_huffman::specs::Huffman::code_word, h3_huffman::specs::Huffman::bits))]
pub fn never_indexed()
    ensures first { encoded_section (fresh 4096 100) (secret_a ∷ []) ≡ 0 ∷ 0 ∷ 59 ∷ 242 ∷ 176 ∷ 255 ∷ 129 ∷ 15 ∷ [] }
    ensures none { instructions_for (fresh 4096 100) (secret_a ∷ []) ≡ [] }
    ensures second { encoded_section secret_sent (secret_a ∷ []) ≡ 0 ∷ 0 ∷ 59 ∷ 242 ∷ 176 ∷ 255 ∷ 129 ∷ 15 ∷ [] }
    ensures still { instructions_for secret_sent (secret_a ∷ []) ≡ [] }
    ensures new_entry { instructions_for secret_sent (x_a ∷ []) ≡ InsertLiteral (huffman_text (codes "x-a"))
        (huffman_text (codes "1")) ∷ [] }
    ensures entry { encoded_section (sent_section (fresh 4096 100) 0 (x_a ∷ [])) (secret_a ∷ []) ≡ 2 ∷ 0 ∷ 96 ∷ 129 ∷ 15 ∷ [] }
    ensures behind { encoded_section (fresh 4096 100) (x_a ∷ secret_a ∷ []) ≡ 2 ∷ 128 ∷ 16 ∷ 8 ∷ 129 ∷ 15 ∷ [] }
    ensures static_entry { encoded_section (fresh 4096 100)
        (flagged (plain_field (codes ":path") (codes "/")) true ∷ []) ≡ 0 ∷ 0 ∷ 113 ∷ 129 ∷ 99 ∷ [] }
    ensures ahead { instructions_for (no_waiting 64) (secret_a ∷ []) ≡ [] }
    ensures marks { (sent_section (no_waiting 64) 0 (secret_a ∷ [])).marks ≡ (no_waiting 64).marks }
{}

/// An encoder that guards secrets flags a short cookie, on every stream: it is a literal with the bit N, and is not inserted. Else it is
/// inserted, and so is a longer cookie.
#[tactic(auto, unfolding(h3_field::specs::StaticTable::static_table, h3_field::specs::StaticTable::static_field, h3_field::specs::StaticTable::static_name, h3_huffman::specs::Huffman::huffman, h3_huffman::specs::Huffman::octets, h3_huffman::specs::Huffman::code_word, h3_huffman::specs::Huffman::bits))]
pub fn guarded_secrets()
    ensures literal { encoded_section guarding (short_cookie ∷ []) ≡ 0 ∷ 0 ∷ 117 ∷ 131 ∷ 52 ∷ 144 ∷ 7 ∷ [] }
    ensures none { instructions_for guarding (short_cookie ∷ []) ≡ [] }
    ensures canceled { encoded_section (writing_on (encoder_after guarding (CancelStream 0)) 0)
        (short_cookie ∷ []) ≡ 0 ∷ 0 ∷ 117 ∷ 131 ∷ 52 ∷ 144 ∷ 7 ∷ [] }
    ensures unasked { instructions_for (fresh 4096 100) (short_cookie ∷ []) ≡ InsertWithStaticName 5 (huffman_text (codes "id=1")) ∷ [] }
    ensures long { guarded_fields guarding (long_cookie ∷ short_cookie ∷ []) ≡ long_cookie ∷ flagged short_cookie true ∷ [] }
{}

/// With the shortest strings one is written as it stands if its Huffman code is not shorter, in lines and in instructions.
#[tactic(auto, unfolding(h3_field::specs::StaticTable::static_table, h3_field::specs::StaticTable::static_field, h3_field::specs::StaticTable::static_name, h3_huffman::specs::Huffman::huffman, h3_huffman::specs::Huffman::octets, h3_huffman::specs::Huffman::code_word, h3_huffman::specs::Huffman::bits))]
pub fn shortest_strings()
    ensures plain { encoded_section (with_shortest 64 0) (x_a ∷ []) ≡ 0 ∷ 0 ∷ 35 ∷ 120 ∷ 45 ∷ 97 ∷ 1 ∷ 49 ∷ [] }
    ensures coded { encoded_section (with_shortest 64 0)
        (plain_field (codes ":authority") (codes "www.example.com") ∷ []) ≡ 0 ∷ 0 ∷ 80 ∷ host_text }
    ensures inserts { flat_map encoder_bytes (instructions_for (with_shortest 64 10) (x_a ∷ [])) ≡ 67 ∷ 120 ∷ 45 ∷ 97 ∷ 1 ∷ 49 ∷ [] }
{}

/// The mark of a value goes by its length and its last 16 bytes.
pub fn marks()
    ensures empty { value_mark [] ≡ 0 }
    ensures one { value_mark (codes "2") ≡ 81 }
    ensures two { value_mark (codes "ab") ≡ 5027 }
    ensures long { value_mark (1 ∷ replicate 16 0) ≡ value_mark (2 ∷ replicate 16 0) }
{}
