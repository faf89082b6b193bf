// What the lines of an experiment said so far.
ghost use Rattle.std.specs.Prelude.{◌≡◌, ◌≤◌, Ok, Err, IfOk, IfErr};
ghost use Rattle.experiment.specs.Amounts.{least, most};
ghost use Rattle.experiment.specs.Ranges.{IsWithin};
ghost use Rattle.experiment.specs.Sizes.{IsAfter};
ghost use Rattle.experiment.specs.Drafts.{drafting, setting_set, amount_set, after};
ghost use Rattle.experiment.specs.Made.{usual_settings, nothing_said, checked, IsMade};

use crate::amounts::Amount;
use crate::fault::{ExperimentFault, LineStop, Wrong, refused};
use crate::fits::{
    check_calls, check_hot, check_incast, check_injections, check_restarts, check_settings,
    check_shifts,
};
use crate::happenings::Happenings;
use crate::load::Hot;
use crate::network::Card;
use crate::numbers::AmountNumbers;
use crate::sizes::Sizes;
use crate::statement::Statement;
use crate::trial::Experiment;
use homa_plain::{Name, SettingFault, Settings};
use std::alloc::{AllocError, Global};

/// What the lines said so far, and the last lines that said a setting, `incast` and `hot`.
#[derive(Drop)]
pub(crate) struct Draft {
    pub(crate) settings: Settings,
    pub(crate) numbers: AmountNumbers,
    pub(crate) card: Card,
    pub(crate) hot: Option<Hot>,
    pub(crate) sizes: Sizes,
    pub(crate) happenings: Happenings,
    pub(crate) setting_line: u64,
    pub(crate) incast_line: u64,
    pub(crate) hot_line: u64,
}

// The settings of the hosts where no line says them.
fn usual_settings() -> Settings
    ensures { result ≡ usual_settings }
{
    let mut settings = Settings::usual();
    settings.hosts = 16;
    settings.rate = 2800;
    settings.resend = 200;
    settings.life = 400;
    settings.pages = 4096;
    settings.calls = 1024;
    settings.served = 4096;
    settings.rebalance = 1024;
    settings
}

impl Draft {
    /// Nothing was said.
    pub(crate) fn new(alloc: Global) -> Result<Draft, AllocError>
        ensures { IfOk result (λ draft. drafting draft ≡ nothing_said) }
    {
        Ok(Draft {
            settings: usual_settings(),
            numbers: AmountNumbers::usual(),
            card: Card::Levels,
            hot: None,
            sizes: Sizes::numbered(alloc, 2)?,
            happenings: Happenings::new(alloc),
            setting_line: 0,
            incast_line: 0,
            hot_line: 0,
        })
    }

    // A setting has another number, unless it is outside its range.
    fn set_setting(&mut self, line: u64, name: Name, n: u32) -> Result<(), LineStop>
        ensures { IsAfter (setting_set (drafting self.old) line name n) result (drafting self.new) }
    {
        let mut settings = self.settings;
        settings.set(name, n);
        if let Err(SettingFault::OutOfRange(_)) = settings.check() {
            return refused(2, Wrong::Setting(name));
        }
        self.settings = settings;
        self.setting_line = line;
        Ok(())
    }

    // An amount has another number.
    fn set_amount(&mut self, line: u64, amount: Amount, n: u64)
        requires least { least amount ≤ n }
        requires most { n ≤ most amount }
        ensures { drafting self.new ≡ amount_set (drafting self.old) line amount n }
    {
        self.numbers.set(amount, n);
        if amount.index() == 16 {
            self.incast_line = line;
        }
    }

    /// What line `number` says.
    pub(crate) fn take(
        &mut self,
        alloc: Global,
        number: u64,
        line: Statement,
    ) -> Result<(), LineStop>
        requires { IsWithin line }
        ensures { IsAfter (after (drafting self.old) number line) result (drafting self.new) }
    {
        match line {
            Statement::Blank => Ok(()),
            Statement::Setting(name, n) => self.set_setting(number, name, n),
            Statement::Amount(amount, n) => {
                self.set_amount(number, amount, n);
                Ok(())
            }
            Statement::Workload(n) => {
                self.sizes = Sizes::numbered(alloc, n)?;
                Ok(())
            }
            Statement::Size { upto, share } => self.sizes.add_size(alloc, upto, share),
            Statement::Length { upto, share } => self.sizes.add_length(alloc, upto, share),
            Statement::Cumulative { upto, sum } => self.sizes.add_cumulative(alloc, upto, sum),
            Statement::Card(card) => {
                self.card = card;
                Ok(())
            }
            Statement::Hot(hot) => {
                self.hot = Some(hot);
                self.hot_line = number;
                Ok(())
            }
            Statement::Restart(restart) => self.happenings.add_restart(restart),
            Statement::Call(call) => self.happenings.add_call(call),
            Statement::Inject(injection) => self.happenings.add_injection(injection),
            Statement::Shift(shift) => self.happenings.add_shift(shift),
        }
    }

    // That what was said fits together.
    fn check(&self) -> Result<(), ExperimentFault>
        ensures { result ≡ checked (drafting self.now) }
    {
        let hosts = self.settings.hosts;
        check_settings(&self.settings, self.setting_line)?;
        check_restarts(&self.happenings.restarts, hosts)?;
        check_calls(&self.happenings.listed, hosts)?;
        check_injections(&self.happenings.injections, hosts)?;
        check_shifts(&self.happenings.shifts, hosts, self.settings.skew)?;
        check_incast(self.numbers.get(Amount::Incast), self.incast_line, hosts)?;
        check_hot(self.hot, self.hot_line, hosts)
    }

    /// The experiment, if what was said fits together. If calls are listed, all of them are measured, and none is made before them.
    pub(crate) fn experiment(self) -> Result<Experiment, ExperimentFault>
        ensures fault { IfErr result (λ fault. checked (drafting self) ≡ Err fault) }
        ensures fit { IfOk result (λ experiment. checked (drafting self) ≡ Ok tt) }
        ensures made { IfOk result (λ experiment. IsMade (drafting self) experiment) }
    {
        self.check()?;
        let listed = self.happenings.listed.len() as u32;
        let network = self.numbers.network(self.card);
        let load = self.numbers.load(self.hot, listed);
        let Draft {
            settings,
            sizes,
            happenings,
            ..
        } = self;
        let Sizes {
            workload,
            numbered,
            ..
        } = sizes;
        let Happenings {
            restarts,
            listed,
            injections,
            shifts,
        } = happenings;
        Ok(Experiment {
            settings,
            network,
            load,
            workload,
            restarts,
            listed,
            injections,
            shifts,
            numbered,
        })
    }
}
