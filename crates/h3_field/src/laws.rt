//! What holds of the encodings. These functions do nothing: their contracts are the laws.
ghost use Rattle.std.specs.Prelude.{◌≡◌, ◌+◌, ◌<◌, ◌≤◌, ◌-◌, ◌^◌, ℕ, Bool, true, false, ◌&&◌, ◌||◌, List, [], ◌++◌, length, map, is_some};
ghost use Rattle.std.specs.Prelude.{None, Some};
ghost use Rattle.h3_field.specs.Line.{FieldLine, line_bytes};
ghost use Rattle.h3_field.specs.LineAnswer.{IsWritable, LineTakesMemory};
ghost use Rattle.std.specs.List.{AllByRecursion};
ghost use Rattle.h3_huffman.specs.Payload.{IsByte};
ghost use Rattle.h3_field.specs.Integer.{prefixed};
ghost use Rattle.h3_field.specs.IntegerReading.{integer, integer_limit, IsInteger};
ghost use Rattle.h3_field.specs.IntegerSteps.{Encoded};
ghost use Rattle.h3_field.specs.Prefix.{most_entries, prefix_bytes};
ghost use Rattle.h3_field.specs.PrefixReading.{EncodedPrefix, prefix, IsPrefix};
ghost use Rattle.h3_field.specs.PrefixWriting.{written_prefix, encoded_bytes};
ghost use Rattle.h3_field.specs.StringLiteral.{Text, huffman_text, coded, text_bytes, string_literal};
ghost use Rattle.h3_field.specs.StringReading.{Payload, StandsFor, StandsForNone, payload_of, string};
ghost use Rattle.h3_field.specs.LineReading.{LineForm, SaysLine, line};
ghost use Rattle.h3_field.specs.Values.{string_of, line_of, instruction_of};
ghost use Rattle.h3_field.specs.Ends.{LeavesEnds};
ghost use Rattle.h3_field.specs.Field.{Field, text_eq, section_size};
ghost use Rattle.h3_field.specs.Secret.{is_secret, guarded};
ghost use Rattle.h3_field.specs.Section.{HasLine, Answer, Fields, AnswersSection, section_bytes};
ghost use Rattle.h3_field.specs.Reading.{Whole};
ghost use Rattle.h3_field.specs.ReadBack.{IsFieldOfBytes, IsLineOfBytes, IsInstructionOfBytes, HasInstruction, answer_from};
ghost use Rattle.h3_field.specs.Instruction.{EncoderInstruction, DecoderInstruction, encoder_bytes, decoder_bytes};
ghost use Rattle.h3_field.specs.InstructionReading.{InstructionForm, Says, instruction, decoder_instruction};
ghost use Rattle.h3_field.specs.InstructionAnswer.{IsSendable, IsReply, InstructionTakesMemory};

use crate::field::HeaderField;
use std::hash::Hash;

/// A written field line is read back, whatever follows.
#[tactic(auto, using(crate::specs::ReadBackLaws::line_reads_back))]
pub fn line_reads_back()
    ensures { (l : FieldLine) (rest : List ℕ) → IsWritable l → IsLineOfBytes l → length (line_bytes l) < 2 ^ 63
        → HasLine (line_bytes l ++ rest) l rest }
{}

/// Bytes begin with one line.
pub fn one_line()
    ensures { (bytes rest more : List ℕ) (l k : FieldLine) → HasLine bytes l rest → HasLine bytes k more → (l ≡ k) × (rest ≡ more) }
{}

/// A written encoder instruction is read back, whatever follows.
#[tactic(auto, using(crate::specs::ReadBackLaws::instruction_reads_back))]
pub fn instruction_reads_back()
    ensures { (i : EncoderInstruction) (rest : List ℕ) → IsSendable i → IsInstructionOfBytes i → length (encoder_bytes i) < 2 ^ 63
        → HasInstruction (encoder_bytes i ++ rest) i rest }
{}

/// A written decoder instruction is read back, whatever follows.
#[tactic(auto, using(crate::specs::ReadBackLaws::reply_reads_back))]
pub fn reply_reads_back()
    ensures { (i : DecoderInstruction) (rest : List ℕ) → IsReply i → decoder_instruction (decoder_bytes i ++ rest) ≡ Whole i rest }
{}

/// Bytes begin with one encoder instruction.
pub fn one_instruction()
    ensures { (bytes rest more : List ℕ) (i j : EncoderInstruction) → HasInstruction bytes i rest → HasInstruction bytes j more → (i ≡ j)
        × (rest ≡ more) }
{}

/// A section has one answer under a limit.
pub fn one_answer()
    ensures { (limit : ℕ) (bytes : List ℕ) (a b : Answer) → AnswersSection limit bytes a → AnswersSection limit bytes b → a ≡ b }
{}

/// What a reader answers to a written section: the fields and the sum of their sizes if that is within the limit. Otherwise it is the sum
/// at the first field that passes it.
pub fn section_reads_back()
    ensures answer { (limit : ℕ) (fields : List Field) (answer : Answer) → AllByRecursion IsFieldOfBytes fields
        → section_size fields < 2 ^ 62 → length (section_bytes fields) < 2 ^ 63 → AnswersSection limit (section_bytes fields) answer
        → answer ≡ answer_from limit 0 [] fields }
    ensures within { (limit : ℕ) (fields : List Field) → section_size fields < 2 ^ 62 → section_size fields ≤ limit
        → answer_from limit 0 [] fields ≡ Fields fields (section_size fields) }
{}

/// A prefixed integer in range is read back, whatever follows, in each of its encodings; and nothing else is read.
pub fn integer_reads_back()
    ensures written { (size flags n : ℕ) (rest : List ℕ) → n < integer_limit size
        → integer size (prefixed size flags n ++ rest) ≡ Whole (flags, n) rest }
    ensures longer { (size flags n : ℕ) (octets rest : List ℕ) → IsInteger size flags n octets → n < integer_limit size
        → integer size (octets ++ rest) ≡ Whole (flags, n) rest }
    ensures nothing_else { (size flags n : ℕ) (bytes rest : List ℕ) → integer size bytes ≡ Whole (flags, n) rest
        → Encoded size flags n bytes rest }
{}

/// A written section prefix is read back, whatever follows, and a reader within the window takes the count and the base
/// that were written.
pub fn prefix_reads_back()
    ensures written { (capacity count base : ℕ) → prefix_bytes capacity count base ≡ encoded_bytes (written_prefix capacity count base) }
    ensures bytes { (p : EncodedPrefix) (rest : List ℕ) → p.encoded < integer_limit 8 → p.delta < integer_limit 7
        → prefix (encoded_bytes p ++ rest) ≡ Whole p rest }
    ensures taken { (capacity inserted count base : ℕ) → 0 < capacity → (count ≡ 0 → base ≡ 0) → inserted < count + most_entries capacity
        → count ≤ inserted + most_entries capacity → IsPrefix capacity inserted (written_prefix capacity count base) count base }
{}

/// A written string is read back as it was coded, whatever follows, and a payload is one string. What was written is its payload's.
pub fn string_reads_back()
    ensures written { (size flags : ℕ) (text : Text) (rest : List ℕ) → length (text_bytes text) < integer_limit (size - 1)
        → string size (string_literal size flags text ++ rest) ≡ Whole (flags, payload_of text) rest }
    ensures stands { (text : Text) → AllByRecursion IsByte text.bytes → StandsFor (payload_of text) text.bytes }
    ensures one { (p : Payload) (s t : List ℕ) → StandsFor p s → StandsFor p t → s ≡ t }
{}

/// Equality of fields is that of their bytes, and equal fields hash alike, whether their parts are borrowed or owned, and whichever flag
/// each has.
pub fn equal_fields_hash_alike()
    ensures equality { (a b : Field) → ⟦<HeaderField as PartialEq>⟧.eq a b ≡ text_eq a b }
    ensures hash { (a b : Field) → text_eq a b ≡ true → ⟦<HeaderField as Hash>⟧.hash_input a ≡ ⟦<HeaderField as Hash>⟧.hash_input b }
{}

/// What a payload stands for is a value: the string, or none.
pub fn payloads_are_their_value()
    ensures some { (p : Payload) (s : List ℕ) → StandsFor p s → string_of p ≡ Some s }
    ensures only { (p : Payload) (s : List ℕ) → string_of p ≡ Some s → StandsFor p s }
    ensures none { (p : Payload) → StandsForNone p → string_of p ≡ None }
    ensures refused { (p : Payload) → string_of p ≡ None → StandsForNone p }
{}

/// What a form of a line says is a value: the line, or none if a string of it is refused. A form that may be refused because an allocation
/// fails says a line.
pub fn lines_are_their_value()
    ensures some { (form : LineForm) (l : FieldLine) → SaysLine form l → line_of form ≡ Some l }
    ensures only { (form : LineForm) (l : FieldLine) → line_of form ≡ Some l → SaysLine form l }
    ensures none { (form : LineForm) → ((l : FieldLine) → SaysLine form l → ⊥) → line_of form ≡ None }
    ensures refused { (form : LineForm) (l : FieldLine) → line_of form ≡ None → SaysLine form l → ⊥ }
    ensures memory { (form : LineForm) → LineTakesMemory form → is_some (line_of form) ≡ true }
{}

/// What a form of an encoder instruction says is a value: the instruction, or none if a string of it is refused. A form that may be refused
/// because an allocation fails says an instruction.
pub fn instructions_are_their_value()
    ensures some { (form : InstructionForm) (i : EncoderInstruction) → Says form i → instruction_of form ≡ Some i }
    ensures only { (form : InstructionForm) (i : EncoderInstruction) → instruction_of form ≡ Some i → Says form i }
    ensures none { (form : InstructionForm) → ((i : EncoderInstruction) → Says form i → ⊥) → instruction_of form ≡ None }
    ensures refused { (form : InstructionForm) (i : EncoderInstruction) → instruction_of form ≡ None → Says form i → ⊥ }
    ensures memory { (form : InstructionForm) → InstructionTakesMemory form → is_some (instruction_of form) ≡ true }
{}

/// What a reading leaves is an end of the bytes, and at least one byte is taken.
pub fn readings_leave_ends()
    ensures line { LeavesEnds 1 line }
    ensures instruction { LeavesEnds 1 instruction }
    ensures decoder_instruction { LeavesEnds 1 decoder_instruction }
    ensures prefix { LeavesEnds 1 prefix }
{}

/// With the choice on, a string is written in no more bytes than in any other way, and in at most ten more than it has. With the choice off
/// it is Huffman coded.
pub fn strings_are_shortest()
    ensures off { (bytes : List ℕ) → coded false bytes ≡ huffman_text bytes }
    ensures shortest { (size flags : ℕ) (text : Text)
        → length (string_literal size flags (coded true text.bytes)) ≤ length (string_literal size flags text) }
    ensures within { (size flags : ℕ) (bytes : List ℕ) → length (string_literal size flags (coded true bytes)) ≤ length bytes + 10 }
{}

/// Who guards secrets sets the flag of each, and changes nothing else.
pub fn secrets_are_flagged()
    ensures name { (guards : Bool) (f : Field) → (guarded guards f).name ≡ f.name }
    ensures value { (guards : Bool) (f : Field) → (guarded guards f).value ≡ f.value }
    ensures flag { (guards : Bool) (f : Field) → (guarded guards f).never_indexed ≡ (f.never_indexed || (guards && is_secret f)) }
    ensures off { (fields : List Field) → map (guarded false) fields ≡ fields }
{}
