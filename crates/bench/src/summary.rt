//! The summary that a run prints.

ghost use Rattle.std.specs.Prelude.{◌≡◌, OnOk, map};
ghost use Rattle.std.specs.Io.KnownBytes.{Appends};
ghost use Rattle.bench_commands.specs.Answer.{FailsToWrite};
ghost use Rattle.bench.specs.Summary.{byte_count, is_sent, queue_line, queue_lines, sent_in, summary_text};

use bench_commands::{Failure, Output};
use nic_device::ReplyNote;
use pmd::{Entry, Report};
use std::io::Write;

/// The results of a run.
#[derive(Drop)]
pub(crate) struct Summary {
    /// The reports of each queue's worker, in the order of the queues.
    pub(crate) reports: Vec<Vec<Report>>,
    /// The number of transmitted frames.
    pub(crate) sent: usize,
}

/// Returns the number of bytes in the packets that these reports describe.
fn byte_count(reports: &[Report]) -> u128
    ensures { result ≡ byte_count reports.now }
{
    let mut bytes = 0;
    for report in reports {
        bytes += u128::from(report.len);
    }
    bytes
}

/// Whether a frame was transmitted at this entry of a history.
fn is_sent(entry: &Entry) -> bool
    ensures { result ≡ is_sent entry.now.reply }
{
    matches!(entry.reply, ReplyNote::Sent { .. })
}

/// Returns the number of frames transmitted in a history.
pub(crate) fn sent_in(history: &[Entry]) -> usize
    ensures { result ≡ sent_in history.now }
{
    let mut sent = 0;
    for entry in history {
        if is_sent(entry) {
            sent += 1;
        }
    }
    sent
}

/// Writes a queue's line of the summary.
fn write_queue<W: Write>(
    output: &mut Output<W>,
    queue: usize,
    reports: &[Report],
) -> Result<(), Failure>
    ensures ok { OnOk result (Appends (W.contents output.old.writer) (W.contents output.new.writer)
        (queue_line queue reports.now)) }
    ensures err { FailsToWrite result output.new.has_failed }
{
    let packets = reports.len();
    let bytes = byte_count(reports);
    output.write(format_args!("queue {queue} packets {packets} bytes {bytes}\n"))
}

/// Writes each queue's line of the summary.
fn write_queues<W: Write>(output: &mut Output<W>, reports: &[Vec<Report>]) -> Result<(), Failure>
    ensures ok { OnOk result (Appends (W.contents output.old.writer) (W.contents output.new.writer)
        (queue_lines 0 (map (λ r. r.items) reports.now))) }
    ensures err { FailsToWrite result output.new.has_failed }
{
    for (queue, reports) in reports.iter().enumerate() {
        write_queue(output, queue, reports)?;
    }
    Ok(())
}

/// Writes the summary of a run.
pub(crate) fn write_summary<W: Write>(
    output: &mut Output<W>,
    summary: &Summary,
) -> Result<(), Failure>
    ensures ok { OnOk result (Appends (W.contents output.old.writer) (W.contents output.new.writer)
        (summary_text (map (λ r. r.items) summary.now.reports.items) summary.now.sent)) }
    ensures err { FailsToWrite result output.new.has_failed }
{
    write_queues(output, &summary.reports)?;
    let sent = summary.sent;
    output.write(format_args!("sent {sent}\nhistory legal\n"))
}
