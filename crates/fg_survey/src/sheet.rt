//! What is kept of a trace.
ghost use Rattle.std.specs.Prelude.{◌≡◌, ◌<◌, ◌^◌, ◌∷◌, ◌++◌, [], List, IfOk, OnOk, length};
ghost use Rattle.fg_trace.specs.Trace.{Record};
ghost use Rattle.fg_survey.specs.Steps.{IsSheet};
ghost use Rattle.fg_survey.specs.Text.{survey_text};

use crate::lanes::Lanes;
use crate::lines::{push_more_line, push_tail_line, push_trace_line};
use crate::parts::{push_matrices, push_rows, push_streams};
use crate::ports::{no_rows, take_row};
use crate::reading::read;
use crate::rows::Row;
use crate::streams::Streams;
use crate::totals::Totals;
use fg_report::Tail;
use std::alloc::{AllocError, Global};

/// What is kept of the records that were read.
#[derive(Drop)]
pub(crate) struct Sheet {
    pub(crate) totals: Totals,
    /// A row for each port.
    pub(crate) rows: Vec<Row>,
    pub(crate) streams: Streams,
    pub(crate) lanes: Lanes,
}

impl Sheet {
    /// No record.
    pub(crate) fn new(alloc: Global) -> Result<Sheet, AllocError>
        ensures { IfOk result (λ sheet. IsSheet sheet []) }
    {
        Ok(Sheet {
            totals: Totals::at(0, 0, 0),
            rows: no_rows(alloc)?,
            streams: Streams::new(alloc),
            lanes: Lanes::new(alloc)?,
        })
    }

    /// Takes a record.
    pub(crate) fn take(
        &mut self,
        alloc: Global,
        time: u64,
        port: u16,
        size: u16,
        datagram: &[u8],
    ) -> Result<(), AllocError>
        requires few { (records : List Record) × IsSheet self.old records × (length records < 2 ^ 40) }
        requires size { length datagram.now ≡ size }
        ensures { OnOk result ((records : List Record) → IsSheet self.old records
            → IsSheet self.new (records ++ (record { time = time; port = port; datagram = datagram.now }) ∷ [])) }
    {
        let reading = read(datagram);
        self.totals.take(time, size);
        take_row(&mut self.rows, port, time, size, reading);
        self.streams.take(alloc, time, port, reading, datagram)?;
        self.lanes.take(alloc, &self.streams, time, port, reading)?;
        Ok(())
    }

    /// The text of a trace that ends so.
    ///
    /// The streams end, so the sheet is of no use after it.
    pub(crate) fn text(
        &mut self,
        alloc: Global,
        json: bool,
        tail: Tail,
    ) -> Result<Vec<u8>, AllocError>
        requires { (records : List Record) × IsSheet self.old records × (length records < 2 ^ 40) }
        ensures { IfOk result (λ text. (records : List Record) (sheet : IsSheet self.old records)
            → text.items ≡ survey_text json sheet.heard tail) }
    {
        self.streams.finish()?;
        let mut text = Vec::new(alloc);
        let start = self.totals.first;
        push_trace_line(&mut text, json, self.totals)?;
        push_rows(&mut text, json, start, &self.rows)?;
        push_streams(
            &mut text,
            json,
            start,
            &self.streams.senders,
            &self.streams.streams,
        )?;
        push_matrices(&mut text, json, &self.lanes.lanes, &self.streams)?;
        push_more_line(&mut text, json, self.streams.more)?;
        push_tail_line(&mut text, json, tail)?;
        Ok(text)
    }
}
