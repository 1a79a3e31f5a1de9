//! What the definitions give at values of the standards. These functions do nothing: the check computes their contracts.
ghost use Rattle.std.specs.Prelude.{◌≡◌, ◌∷◌, [], length, codes, Some, None, true, false};
ghost use Rattle.h3_huffman.specs.Huffman.{huffman};
ghost use Rattle.h3_field.specs.Integer.{prefixed};
ghost use Rattle.h3_field.specs.IntegerReading.{integer};
ghost use Rattle.h3_field.specs.Reading.{Whole, Unfinished, Bad};
ghost use Rattle.h3_field.specs.Prefix.{prefix_bytes};
ghost use Rattle.h3_field.specs.PrefixReading.{prefix};
ghost use Rattle.h3_field.specs.StaticTable.{static_table, static_field, static_name};
ghost use Rattle.h3_field.specs.Instruction.{encoder_bytes, decoder_bytes};
ghost use Rattle.h3_field.specs.Instruction.EncoderInstruction.{SetCapacity, InsertWithStaticName, InsertLiteral};
ghost use Rattle.h3_field.specs.Instruction.DecoderInstruction.{Increment};
ghost use Rattle.h3_field.specs.InstructionReading.{instruction, Repeat};
ghost use Rattle.h3_field.specs.Field.{flagged, plain_field};
ghost use Rattle.h3_field.specs.Secret.{is_secret, guarded};
ghost use Rattle.h3_field.specs.StringLiteral.{huffman_text, plain_text, coded};
ghost use Rattle.h3_field.specs.StringReading.{payload_of};
ghost use Rattle.h3_field.specs.Line.{line_bytes};
ghost use Rattle.h3_field.specs.Line.FieldLine.{StaticName, PostBaseName, Literal};
ghost use Rattle.h3_field.specs.LineReading.{line, Indexed, Named, PostBaseNamed, LiteralField};
ghost use Rattle.h3_field.specs.Section.{static_line};
ghost use Rattle.h3_field.specs.Waiting.{behind, encoder_wait, decoder_wait};
ghost use Rattle.h3_field.specs.declared.waiting.Wait.TheVariants.{Nothing, Integer, Bytes};

/// Prefixed integers, the second one from RFC 7541, appendix C.1.2.
pub fn integers()
    ensures in_prefix { prefixed 5 2 10 ≡ 74 ∷ [] }
    ensures behind { prefixed 5 2 1337 ≡ 95 ∷ 154 ∷ 10 ∷ [] }
    ensures longer { integer 5 (95 ∷ 154 ∷ 138 ∷ 0 ∷ 7 ∷ []) ≡ Whole (2, 1337) (7 ∷ []) }
    ensures short { integer 5 (95 ∷ 154 ∷ []) ≡ Unfinished }
    ensures greatest { integer 5 (31 ∷ 255 ∷ 255 ∷ 255 ∷ 255 ∷ 255 ∷ 255 ∷ 255 ∷ 255 ∷ 127 ∷ []) ≡ Whole (0, 9223372036854775838) [] }
    ensures too_great { integer 5 (31 ∷ 128 ∷ 128 ∷ 128 ∷ 128 ∷ 128 ∷ 128 ∷ 128 ∷ 128 ∷ 128 ∷ 1 ∷ []) ≡ Bad }
    ensures not_whole { integer 5 (31 ∷ 128 ∷ 128 ∷ 128 ∷ 128 ∷ 128 ∷ 128 ∷ 128 ∷ 128 ∷ 128 ∷ 129 ∷ []) ≡ Bad }
{}

/// Huffman codes, the second one from RFC 7541, appendix C.4.1.
pub fn strings()
    ensures letter { huffman (codes "a") ≡ 31 ∷ [] }
    ensures host { huffman (codes "www.example.com") ≡ 241 ∷ 227 ∷ 194 ∷ 229 ∷ 242 ∷ 58 ∷ 107 ∷ 160 ∷ 171 ∷ 144 ∷ 244 ∷ 255 ∷ [] }
{}

/// Prefixes of field sections.
pub fn prefixes()
    ensures written { prefix_bytes 4096 10 5 ≡ 11 ∷ 132 ∷ [] }
    ensures read { prefix (11 ∷ 132 ∷ []) ≡ Whole (record { encoded = 11; is_negative = true; delta = 4 }) [] }
    ensures empty { prefix_bytes 4096 0 0 ≡ 0 ∷ 0 ∷ [] }
{}

/// The static table.
#[tactic(auto, unfolding(crate::specs::StaticTable::static_table, crate::specs::StaticTable::static_field, crate::specs::StaticTable::static_name))]
pub fn static_entries()
    ensures count { length static_table ≡ 99 }
    ensures equal { static_field (plain_field (codes ":status") (codes "200")) ≡ Some 25 }
    ensures last { static_field (plain_field (codes "x-frame-options") (codes "sameorigin")) ≡ Some 98 }
    ensures other_value { static_field (plain_field (codes ":status") (codes "201")) ≡ None }
    ensures least { static_name (codes ":status") ≡ Some 24 }
    ensures unknown { static_name (codes "x-a") ≡ None }
{}

/// Instructions and field lines.
pub fn instructions()
    ensures increment { decoder_bytes (Increment 300) ≡ 63 ∷ 237 ∷ 1 ∷ [] }
    ensures capacity { encoder_bytes (SetCapacity 220) ≡ 63 ∷ 189 ∷ 1 ∷ [] }
    ensures short { instruction (31 ∷ []) ≡ Unfinished }
    ensures duplicate { instruction (2 ∷ 9 ∷ []) ≡ Whole (Repeat 2) (9 ∷ []) }
    ensures indexed { line (217 ∷ []) ≡ Whole (Indexed true 25) [] }
{}

/// Lines with a literal value, with the bit N and without it: with it a field that the static table has is a literal too (RFC 9204,
/// sections 4.5.4 to 4.5.6).
#[tactic(auto, unfolding(crate::specs::StaticTable::static_table, crate::specs::StaticTable::static_field, crate::specs::StaticTable::static_name))]
pub fn never_indexed()
    ensures named_plain { line_bytes (static_line (plain_field (codes "authorization") (codes "a"))) ≡ 95 ∷ 69 ∷ 129 ∷ 31 ∷ [] }
    ensures named { line_bytes (static_line (flagged (plain_field (codes "authorization") (codes "a")) true)) ≡ 127 ∷ 69 ∷ 129 ∷ 31 ∷ [] }
    ensures literal_plain { line_bytes (static_line (plain_field (codes "x-a") (codes "1"))) ≡ 43 ∷ 242 ∷ 176 ∷ 255 ∷ 129 ∷ 15 ∷ [] }
    ensures literal { line_bytes
        (static_line (flagged (plain_field (codes "x-a") (codes "1")) true)) ≡ 59 ∷ 242 ∷ 176 ∷ 255 ∷ 129 ∷ 15 ∷ [] }
    ensures entry_plain { line_bytes (static_line (plain_field (codes ":path") (codes "/"))) ≡ 193 ∷ [] }
    ensures entry { line_bytes (static_line (flagged (plain_field (codes ":path") (codes "/")) true)) ≡ 113 ∷ 129 ∷ 99 ∷ [] }
    ensures post_base { line_bytes (PostBaseName 0 (huffman_text (codes "1")) true) ≡ 8 ∷ 129 ∷ 15 ∷ [] }
    ensures named_read { line (113 ∷ 1 ∷ 47 ∷ []) ≡ Whole (Named true 1 (record { is_huffman = false; bytes = 47 ∷ [] }) true) [] }
    ensures literal_read { line (49 ∷ 97 ∷ 1 ∷ 98 ∷ []) ≡ Whole
        (LiteralField (record { is_huffman = false; bytes = 97 ∷ [] }) (record { is_huffman = false; bytes = 98 ∷ [] }) true) [] }
    ensures post_base_read { line (8 ∷ 1 ∷ 97 ∷ []) ≡ Whole (PostBaseNamed 0 (record { is_huffman = false; bytes = 97 ∷ [] }) true) [] }
{}

/// Strings with the choice on, where they are written as they stand if their Huffman code is not shorter: a code as long as the name and as
/// the value, a longer one, a shorter one, and the empty string. With the choice off they are Huffman coded.
pub fn shortest_strings()
    ensures as_long { line_bytes (Literal (coded true (codes "x-a")) (coded true (codes "1")) false) ≡ 35 ∷ 120 ∷ 45 ∷ 97 ∷ 1 ∷ 49 ∷ [] }
    ensures longer { line_bytes (StaticName 84 (coded true (249 ∷ 249 ∷ [])) true) ≡ 127 ∷ 69 ∷ 2 ∷ 249 ∷ 249 ∷ [] }
    ensures shorter { line_bytes (StaticName 84 (coded true (codes "aaaa")) false) ≡ 95 ∷ 69 ∷ 131 ∷ 24 ∷ 198 ∷ 63 ∷ [] }
    ensures empty { encoder_bytes (InsertLiteral (coded true (codes "x-a")) (coded true [])) ≡ 67 ∷ 120 ∷ 45 ∷ 97 ∷ 0 ∷ [] }
    ensures off { line_bytes (StaticName 84 (coded false (codes "1")) false) ≡ 95 ∷ 69 ∷ 129 ∷ 15 ∷ [] }
    ensures off_longer { encoder_bytes (InsertWithStaticName 84 (coded false (249 ∷ []))) ≡ 255 ∷ 21 ∷ 132 ∷ 255 ∷ 255 ∷ 255 ∷ 239 ∷ [] }
    ensures read { line (35 ∷ 120 ∷ 45 ∷ 97 ∷ 1 ∷ 49 ∷ []) ≡ Whole
        (LiteralField (payload_of (plain_text (codes "x-a"))) (payload_of (plain_text (codes "1"))) false) [] }
{}

/// Fields that name a secret: credentials, and cookies of fewer than 20 bytes. Names are compared whole.
pub fn secrets()
    ensures credentials { is_secret (plain_field (codes "authorization") (codes "Basic YWxhZGRpbjpvcGVuc2VzYW1l")) ≡ true }
    ensures of_a_proxy { is_secret (plain_field (codes "proxy-authorization") []) ≡ true }
    ensures short_cookie { is_secret (plain_field (codes "cookie") (codes "id=1234567890123456")) ≡ true }
    ensures set_cookie { is_secret (plain_field (codes "set-cookie") (codes "id=1")) ≡ true }
    ensures long_cookie { is_secret (plain_field (codes "cookie") (codes "id=12345678901234567")) ≡ false }
    ensures other_name { is_secret (plain_field (codes "x-authorization") (codes "a")) ≡ false }
    ensures upper_case { is_secret (plain_field (codes "Cookie") (codes "a")) ≡ false }
    ensures guarded_cookie { guarded true (plain_field (codes "cookie") (codes "a")) ≡ flagged
        (plain_field (codes "cookie") (codes "a")) true }
    ensures not_guarded { guarded false (plain_field (codes "cookie") (codes "a")) ≡ plain_field (codes "cookie") (codes "a") }
{}

/// What an unfinished instruction waits for: a group of a capacity or of an acknowledgment, a byte of a name, the length of a value, four
/// bytes of a value. One instruction is whole.
pub fn waits()
    ensures none { encoder_wait [] ≡ Bytes 1 }
    ensures capacity { encoder_wait (63 ∷ []) ≡ Integer }
    ensures name { encoder_wait (67 ∷ 97 ∷ 98 ∷ []) ≡ Bytes 1 }
    ensures value { encoder_wait (67 ∷ 97 ∷ 98 ∷ 99 ∷ []) ≡ Bytes 1 }
    ensures value_bytes { encoder_wait (192 ∷ 5 ∷ 97 ∷ []) ≡ Bytes 4 }
    ensures acknowledgment { decoder_wait (255 ∷ 128 ∷ []) ≡ Integer }
    ensures whole { encoder_wait (2 ∷ []) ≡ Nothing }
    ensures empty_groups { behind Integer (128 ∷ 128 ∷ []) ≡ Some Integer }
    ensures other_groups { behind Integer (128 ∷ 129 ∷ []) ≡ None }
    ensures fewer_bytes { behind (Bytes 4) (98 ∷ 99 ∷ []) ≡ Some (Bytes 2) }
    ensures enough_bytes { behind (Bytes 4) (98 ∷ 99 ∷ 100 ∷ 101 ∷ []) ≡ None }
{}
