ghost use Rattle.std.specs.Prelude.{◌≡◌, false, IfOk, IfErr, OnOk};
ghost use Rattle.layout_reading.specs.Reading.{read_span, first_area};
ghost use Rattle.program_channels.specs.Channel.{read_channel};
ghost use Rattle.program_channels.specs.Channels.{HasRecord};
ghost use Rattle.program_meaning.specs.Files.{open_file, close_file};
ghost use Rattle.program_meaning.specs.Step as meant;
ghost use Rattle.program_meaning.specs.Step.{disk_of};
ghost use Rattle.program_meaning.specs.Tree as tree;
ghost use Rattle.seq_files.specs.Disks.{read_mode};
ghost use Rattle.storage_places.specs.Fits.{area_lengths};
ghost use Rattle.storage_places.specs.Held.{IsWithin};
ghost use Rattle.tree_reading.specs.Reading.{place_if, operand_if, read_id};
ghost use Rattle.tree_reading.specs.Reading as reading;
ghost use Rattle.trial_run.specs.Branches.{branch_if};
ghost use Rattle.trial_run.specs.Calls.{Tells, BreaksOff};
ghost use Rattle.trial_run.specs.Plans.{IsPlan};
ghost use Rattle.trial_run.specs.Runs.{IsRunOf, Went, Fell, doing};

use crate::branches::{has_end, list_by_status};
use crate::end::FaultKind;
use crate::halt::Halt;
use crate::plan::Plan;
use crate::run::Run;
use cobol_syntax::{Branch, Mode, Operand, Place, StatementId};
use program_channels::Channel;
use seq_files::Status;
use y2k_base::{Bytes, Span};

impl<'a> Run<'a> {
    /// The file's part of OPEN, and its status item.
    fn open(&mut self, plan: &Plan<'a>, channel: Channel<'a>, mode: Mode) -> Result<Status, Halt>
        requires run { IsRunOf plan.now self.old }
        requires channel { HasRecord plan.now.layout.now channel }
        ensures ok { IfOk result (Tells plan.now self.old self.new
            (λ p day w. meant.call p day w (read_channel channel.entry) (open_file (disk_of w (read_channel channel.entry)) (read_mode mode)) false)) }
        ensures err { IfErr result (BreaksOff plan.now self.old self.new
            (λ p day w. meant.call p day w (read_channel channel.entry) (open_file (disk_of w (read_channel channel.entry)) (read_mode mode)) false)) }
        ensures position { self.new.position ≡ self.old.position }
        ensures run { IsRunOf plan.now self.new }
    {
        match file_statements::open(plan.alloc, &mut self.unit, channel, mode) {
            Ok(status) => Ok(status),
            Err(fault) => Err(Halt::of_step(fault)),
        }
    }

    /// The file's part of CLOSE, and its status item.
    fn close(&mut self, plan: &Plan<'a>, channel: Channel<'a>) -> Result<Status, Halt>
        requires run { IsRunOf plan.now self.old }
        requires channel { HasRecord plan.now.layout.now channel }
        ensures ok { IfOk result (Tells plan.now self.old self.new
            (λ p day w. meant.call p day w (read_channel channel.entry) (close_file (disk_of w (read_channel channel.entry))) false)) }
        ensures err { IfErr result (BreaksOff plan.now self.old self.new
            (λ p day w. meant.call p day w (read_channel channel.entry) (close_file (disk_of w (read_channel channel.entry))) false)) }
        ensures position { self.new.position ≡ self.old.position }
        ensures run { IsRunOf plan.now self.new }
    {
        match file_statements::close(plan.alloc, &mut self.unit, channel) {
            Ok(status) => Ok(status),
            Err(fault) => Err(Halt::of_step(fault)),
        }
    }

    /// The record of READ, the status item, and INTO. `end` says that there is an AT END.
    fn read(
        &mut self,
        plan: &Plan<'a>,
        channel: Channel<'a>,
        into: &Option<Place>,
        end: bool,
    ) -> Result<Status, Halt>
        requires run { IsRunOf plan.now self.old }
        requires channel { HasRecord plan.now.layout.now channel }
        ensures ok { IfOk result (Tells plan.now self.old self.new
            (λ p day w. meant.read_record p day w (place_if into.now) end (read_channel channel.entry))) }
        ensures err { IfErr result (BreaksOff plan.now self.old self.new
            (λ p day w. meant.read_record p day w (place_if into.now) end (read_channel channel.entry))) }
        ensures position { self.new.position ≡ self.old.position }
        ensures run { IsRunOf plan.now self.new }
    {
        match file_statements::read(plan.alloc, &mut self.unit, channel, into, end) {
            Ok(status) => Ok(status),
            Err(fault) => Err(Halt::of_step(fault)),
        }
    }

    /// FROM, the file's part of WRITE, and its status item.
    fn write(
        &mut self,
        plan: &Plan<'a>,
        channel: Channel<'a>,
        span: Span,
        from: &Option<Operand>,
    ) -> Result<Status, Halt>
        requires run { IsRunOf plan.now self.old }
        requires channel { HasRecord plan.now.layout.now channel }
        requires span { IsWithin (first_area plan.now.layout.now.areas) (area_lengths plan.now.layout.now) span }
        ensures ok { IfOk result (Tells plan.now self.old self.new
            (λ p day w. meant.write_from p day (read_channel channel.entry) (read_span (first_area plan.now.layout.now.areas) span)
            (meant.from_operand p day w (operand_if from.now) (read_span (first_area plan.now.layout.now.areas) span)))) }
        ensures err { IfErr result (BreaksOff plan.now self.old self.new
            (λ p day w. meant.write_from p day (read_channel channel.entry) (read_span (first_area plan.now.layout.now.areas) span)
            (meant.from_operand p day w (operand_if from.now) (read_span (first_area plan.now.layout.now.areas) span)))) }
        ensures position { self.new.position ≡ self.old.position }
        ensures run { IsRunOf plan.now self.new }
    {
        match file_statements::write(plan.alloc, &mut self.unit, channel, span, from) {
            Ok(status) => Ok(status),
            Err(fault) => Err(Halt::of_step(fault)),
        }
    }

    /// OPEN.
    pub(crate) fn do_open(
        &mut self,
        plan: &Plan<'a>,
        id: StatementId,
        mode: Mode,
        name: &[u8],
    ) -> Result<(), Halt>
        requires plan { IsPlan plan.now }
        requires run { IsRunOf plan.now self.old }
        ensures ok { OnOk result (Went plan.now self.old self.new (doing (read_id id) (tree.Open (reading.read_mode mode) name.now))) }
        ensures err { IfErr result (Fell plan.now self.old self.new (read_id id) (doing (read_id id) (tree.Open (reading.read_mode mode) name.now))) }
        ensures run { IsRunOf plan.now self.new }
    {
        match plan.file(name) {
            None => Err(Halt::Fault(FaultKind::Range)),
            Some(channel) => {
                self.open(plan, channel, mode)?;
                Ok(())
            }
        }
    }

    /// CLOSE.
    pub(crate) fn do_close(
        &mut self,
        plan: &Plan<'a>,
        id: StatementId,
        name: &[u8],
    ) -> Result<(), Halt>
        requires plan { IsPlan plan.now }
        requires run { IsRunOf plan.now self.old }
        ensures ok { OnOk result (Went plan.now self.old self.new (doing (read_id id) (tree.Close name.now))) }
        ensures err { IfErr result (Fell plan.now self.old self.new (read_id id) (doing (read_id id) (tree.Close name.now))) }
        ensures run { IsRunOf plan.now self.new }
    {
        match plan.file(name) {
            None => Err(Halt::Fault(FaultKind::Range)),
            Some(channel) => {
                self.close(plan, channel)?;
                Ok(())
            }
        }
    }

    /// READ.
    pub(crate) fn do_read(
        &mut self,
        plan: &Plan<'a>,
        id: StatementId,
        name: &[u8],
        into: &Option<Place>,
        end: &'a Option<Branch>,
    ) -> Result<(), Halt>
        requires plan { IsPlan plan.now }
        requires run { IsRunOf plan.now self.old }
        ensures ok { OnOk result (Went plan.now self.old self.new (doing (read_id id) (tree.Read name.now (place_if into.now) (branch_if end.now)))) }
        ensures err { IfErr result (Fell plan.now self.old self.new (read_id id) (doing (read_id id) (tree.Read name.now (place_if into.now) (branch_if end.now)))) }
        ensures run { IsRunOf plan.now self.new }
    {
        match plan.file(name) {
            None => Err(Halt::Fault(FaultKind::Range)),
            Some(channel) => {
                let status = self.read(plan, channel, into, has_end(end))?;
                self.position.begin(list_by_status(end, status))?;
                Ok(())
            }
        }
    }

    /// WRITE.
    pub(crate) fn do_write(
        &mut self,
        plan: &Plan<'a>,
        id: StatementId,
        name: &Bytes,
        from: &Option<Operand>,
    ) -> Result<(), Halt>
        requires plan { IsPlan plan.now }
        requires run { IsRunOf plan.now self.old }
        ensures ok { OnOk result (Went plan.now self.old self.new (doing (read_id id) (tree.Write name.now (operand_if from.now)))) }
        ensures err { IfErr result (Fell plan.now self.old self.new (read_id id) (doing (read_id id) (tree.Write name.now (operand_if from.now)))) }
        ensures run { IsRunOf plan.now self.new }
    {
        let span = plan.record(name)?;
        match plan.file_at(span) {
            None => Err(Halt::Fault(FaultKind::Range)),
            Some(channel) => {
                self.write(plan, channel, span, from)?;
                Ok(())
            }
        }
    }
}
