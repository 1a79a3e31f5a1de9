//! Worked rows of what is kept when out of memory, and of what was passed to send.

ghost use Rattle.std.specs.Prelude.{◌≡◌, [], Some, length, codes, true};
ghost use Rattle.h3_connection.specs.declared.event.Pull.TheVariants as pulled;
ghost use Rattle.h3_connection.specs.declared.event.Fault.TheVariants as fault;
ghost use Rattle.h3_connection.specs.declared.event.StreamFault.TheVariants as stream_fault;
ghost use Rattle.h3_connection.specs.declared.event.Malformation.TheVariants as malformation;
ghost use Rattle.h3_connection.specs.declared.event.Refusal.TheVariants as refusal;
ghost use Rattle.h3_connection.specs.declared.arrival.Arrival.TheVariants.{BytesCame, EndCame};
ghost use Rattle.h3_connection.specs.Endpoint.{own_waiting};
ghost use Rattle.h3_connection.specs.Keeping.{arrives, pulls, read_arrival};
ghost use Rattle.h3_connection.specs.PartReading.{held};
ghost use Rattle.h3_connection.specs.Shown.{has_outgoing};
ghost use Rattle.h3_connection_rows.specs.KeptRows.{keeps_settings, keeps_a_fault, keeps_a_fault_behind_a_cancellation, keeps_a_reset};
ghost use Rattle.h3_connection_rows.specs.KeptRows.{keeps_a_head, early, settings, sent_after};
ghost use Rattle.h3_connection_rows.specs.Worked.{hex};

/// What is kept is read first, and counts so.
pub fn kept_rows_compute()
    ensures settings_are_read_by_a_pull { (pulls keeps_settings 0).0 ≡ pulled.Pending }
    ensures table_in_use_after_them { own_waiting (pulls keeps_settings 0).1 6 ≡ hex (codes "023fbd01") }
    ensures nothing_kept_after_them { (pulls keeps_settings 0).1.kept ≡ [] }
    ensures own_stream_reads_them_too { own_waiting (pulls keeps_settings 2).1 6 ≡ hex (codes "023fbd01") }
    ensures fault_is_found_by_a_pull { (pulls keeps_a_fault 0).0 ≡ pulled.Fault (fault.Connection 266) }
    ensures fault_is_found_by_a_delivery { (arrives keeps_a_fault (BytesCame 0 [])).0 ≡ Some (refusal.Connection 266) }
    ensures fault_leaves_nothing_kept { (arrives keeps_a_fault (BytesCame 0 [])).1.kept ≡ [] }
    ensures settled_answer_reads_nothing { (pulls keeps_a_fault_behind_a_cancellation 0).0 ≡ pulled.Fault
        (fault.Stream stream_fault.Canceled) }
    ensures settled_answer_keeps { length (pulls keeps_a_fault_behind_a_cancellation 0).1.kept ≡ 1 }
    ensures kept_reset_opens { has_outgoing keeps_a_reset 0 ≡ true }
    ensures kept_reset_counts { (arrives keeps_a_reset (EndCame 0)).0 ≡ Some refusal.AfterEnd }
    ensures kept_reset_is_read { (pulls keeps_a_reset 0).0 ≡ pulled.Fault (fault.Stream (stream_fault.Reset 268)) }
    ensures kept_end_counts { (arrives keeps_a_head (BytesCame 0 [])).0 ≡ Some refusal.AfterEnd }
    ensures kept_head_is_read { (pulls keeps_a_head 0).0 ≡ pulled.Fault (fault.Stream (stream_fault.Malformed malformation.Name)) }
    ensures early_decoder_bytes { (read_arrival early (BytesCame 3 settings)).1 ≡ Some 514 }
    ensures held_bytes_are_read_alike { read_arrival (held early 3 settings) (BytesCame 3 []) ≡ read_arrival early (BytesCame 3 settings) }
{}

/// What was passed to send is counted so.
pub fn sent_rows_compute()
    ensures nothing { sent_after 1 ≡ 0 }
    ensures head { sent_after 2 ≡ 138 }
    ensures refused_head { sent_after 3 ≡ 138 }
    ensures body { sent_after 4 ≡ 204 }
    ensures empty_body { sent_after 5 ≡ 268 }
    ensures trailer { sent_after 6 ≡ 400 }
    ensures end { sent_after 7 ≡ 400 }
{}
