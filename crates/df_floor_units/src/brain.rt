ghost use Rattle.std.specs.Prelude.{◌≡◌, ◌≤◌, ◌≤ℤ◌, ◌+◌, [], IfOk, OnErr, nat_lt, pos};
ghost use Rattle.df_brain.specs.Brain.{want_of as as_want};
ghost use Rattle.df_pairs.specs.Divergence.{fresh};

use crate::action::Action;
use crate::book::FloorBook;
use crate::broker::Broker;
use crate::heard::Heard;
use crate::kind::Kind;
use crate::stage::Stage;
use crate::ticks::Ticks;
use crate::trader::Trader;
use df_brain::{Brain, Last, Want};
use df_memory::NoMemory;
use df_messages::Symbol;
use df_pairs::Pair;
use df_rules::StepFunction;
use df_unit::{Call, PartRead, Reply};
use std::alloc::Global;
use std::marker::Model;
use std::mem;

/// The brain of a unit of the floor.
#[derive(Drop)]
pub struct FloorBrain {
    kind: Kind,
    heard: Heard,
    stage: Stage,
    alloc: Global,
}

impl Model for FloorBrain {
    ghost use Rattle.df_floor_units.specs.Floor.{Mind};

    ghost Value = { Mind };

    ghost view = { λ b. record { kind = b.kind; heard = b.heard; stage = b.stage } };
}

/// Whether a list of this length has a place behind this one.
fn has_next(place: u32, len: u32) -> bool
    ensures { result ≡ nat_lt (place + 1) len }
{
    place < u32::MAX && place + 1 < len
}

impl FloorBrain {
    ghost use Rattle.df_floor_units.specs.Floor.{begins};
    ghost use Rattle.df_floor_units.specs.declared.kind.Kind.TheVariants as kind;

    fn begin(alloc: Global, kind: Kind) -> FloorBrain
        ensures { result ≡ begins kind }
    {
        FloorBrain {
            kind,
            heard: Heard::Nothing,
            stage: Stage::Fresh,
            alloc,
        }
    }

    /// An exchange, which tells these ticks.
    pub fn exchange(alloc: Global, ticks: &Ticks) -> Result<FloorBrain, NoMemory>
        ensures { IfOk result (λ b. b ≡ begins (kind.Exchange ticks.now 0)) }
    {
        let ticks = ticks.share()?;
        Ok(FloorBrain::begin(alloc, Kind::Exchange { ticks, from: 0 }))
    }

    /// A broker of so many traders, whose numbers begin at 0.
    pub fn broker(alloc: Global, traders: u16) -> FloorBrain
        ensures { result ≡ begins (kind.Broker (record {
          book = [];
          traders = traders;
          next_trade = pos 0;
        })) }
    {
        FloorBrain::begin(
            alloc,
            Kind::Broker(Broker {
                book: FloorBook::new(alloc),
                traders,
                next_trade: 0,
            }),
        )
    }

    pub fn regulator(alloc: Global) -> FloorBrain
        ensures { result ≡ begins kind.Regulator }
    {
        FloorBrain::begin(alloc, Kind::Regulator)
    }

    /// A trader of this number, which orders a quantity at prices within a slack, in hundredths.
    pub fn trader(
        alloc: Global,
        number: u16,
        quantity: i64,
        slack: u32,
        contrary: bool,
    ) -> FloorBrain
        ensures { result ≡ begins (kind.Trader (record {
          number = number;
          quantity = quantity;
          slack = slack;
          contrary = contrary;
          next_order = pos 0;
        })) }
    {
        FloorBrain::begin(
            alloc,
            Kind::Trader(Trader {
                number,
                quantity,
                slack,
                contrary,
                next_order: 0,
            }),
        )
    }

    /// A monitor of two symbols.
    pub fn monitor(
        alloc: Global,
        first: Symbol,
        second: Symbol,
        window: u32,
        threshold: i64,
    ) -> Result<FloorBrain, NoMemory>
        requires window { 1 ≤ window }
        requires threshold { pos 0 ≤ℤ threshold }
        ensures { IfOk result (λ b. b ≡ begins (kind.Monitor first second
            (fresh window threshold))) }
    {
        let pair = Pair::new(alloc, window, threshold)?;
        let kind = Kind::Monitor {
            first,
            second,
            pair,
        };
        Ok(FloorBrain::begin(alloc, kind))
    }
}

impl FloorBrain {
    ghost use Rattle.std.specs.Prelude.{false};
    ghost use Rattle.df_floor_units.specs.Floor.{adding, handed, opened, reading, told};
    ghost use Rattle.df_floor_units.specs.code.Acting.{takes_memory};
    ghost use Rattle.df_floor_units.specs.Telling.{parts_of};

    fn told(&self) -> Stage
        ensures stage { result ≡ told (parts_of self.now.kind self.now.heard) }
        ensures plain { takes_memory result ≡ false }
    {
        if self.kind.parts_len(&self.heard) > 0 {
            Stage::Creates
        } else {
            Stage::Rests
        }
    }

    fn opened(&self) -> Stage
        ensures { result
            ≡ opened self.now.kind (told (parts_of self.now.kind self.now.heard)) 0 }
    {
        if self.kind.opening_len() > 0 {
            Stage::Opens { place: 0 }
        } else {
            self.told()
        }
    }

    fn opened_behind(&self, place: u32) -> Stage
        ensures { result
            ≡ opened self.now.kind (told (parts_of self.now.kind self.now.heard)) (place + 1) }
    {
        if has_next(place, self.kind.opening_len()) {
            Stage::Opens { place: place + 1 }
        } else {
            self.told()
        }
    }

    fn handed(&self, h: u32, sub: u32) -> Stage
        ensures stage { result ≡ handed self.now.kind h sub }
        ensures plain { takes_memory result ≡ false }
    {
        if self.kind.reads_len(sub) > 0 {
            Stage::Reads { h, sub, place: 0 }
        } else {
            Stage::StoppedDrops { h }
        }
    }

    fn reading_behind(&self, h: u32, sub: u32, place: u32) -> Stage
        ensures stage { result ≡ reading self.now.kind h sub (place + 1) }
        ensures plain { takes_memory result ≡ false }
    {
        if has_next(place, self.kind.reads_len(sub)) {
            Stage::Reads {
                h,
                sub,
                place: place + 1,
            }
        } else {
            Stage::Drops { h }
        }
    }

    fn adding(&self, h: u32) -> Stage
        ensures { result ≡ adding (parts_of self.now.kind self.now.heard) h 0 }
    {
        if self.kind.parts_len(&self.heard) > 0 {
            Stage::Adds { h, place: 0 }
        } else {
            Stage::Publishes { h }
        }
    }

    fn adding_behind(&self, h: u32, place: u32) -> Stage
        ensures { result ≡ adding (parts_of self.now.kind self.now.heard) h (place + 1) }
    {
        if has_next(place, self.kind.parts_len(&self.heard)) {
            Stage::Adds {
                h,
                place: place + 1,
            }
        } else {
            Stage::Publishes { h }
        }
    }
}

impl FloorBrain {
    ghost use Rattle.df_floor_units.specs.Floor.{after_opening, after_read, follow_of};
    ghost use Rattle.df_floor_units.specs.code.Acting.{follow};

    fn after_opening(&self, place: u32, reply: &Reply) -> Action<'static>
        ensures { follow result ≡ after_opening self.now place reply.now }
    {
        let good = match reply {
            Reply::Ok => self.kind.releases(place),
            Reply::Sub(_) => self.kind.subscribes(place),
            _ => false,
        };
        if good {
            Action::Goes(self.opened_behind(place))
        } else {
            Action::Goes(Stage::Stopped)
        }
    }

    fn after_read<'a>(h: u32, sub: u32, place: u32, reply: &'a Reply) -> Action<'a>
        ensures { follow result ≡ after_read h sub place reply.now }
    {
        match reply {
            Reply::Parts(parts) => Action::Hears {
                h,
                sub,
                place,
                parts: parts.as_slice(),
            },
            Reply::NoSuchPart => Action::Hears {
                h,
                sub,
                place,
                parts: &[],
            },
            _ => Action::Goes(Stage::Stopped),
        }
    }

    /// What follows a reply.
    fn action<'a>(&self, reply: &'a Reply) -> Action<'a>
        ensures { follow result ≡ follow_of self.now self.now.stage reply.now }
    {
        match self.stage {
            Stage::Opens { place } => self.after_opening(place, reply),
            Stage::Rests => match reply {
                Reply::Event { h, sub } => Action::Takes { h: *h, sub: *sub },
                _ => Action::Goes(Stage::Stopped),
            },
            Stage::Reads { h, sub, place } => FloorBrain::after_read(h, sub, place, reply),
            Stage::Drops { .. } => match reply {
                Reply::Ok => Action::Acts,
                _ => Action::Goes(Stage::Stopped),
            },
            Stage::Creates => match reply {
                Reply::Handle(h) => Action::Goes(self.adding(*h)),
                _ => Action::Goes(Stage::Stopped),
            },
            Stage::Adds { h, place } => match reply {
                Reply::Ok => Action::Goes(self.adding_behind(h, place)),
                _ => Action::Goes(Stage::Stopped),
            },
            Stage::Publishes { .. } => match reply {
                Reply::Ok => Action::Passes,
                _ => Action::Goes(Stage::Stopped),
            },
            Stage::Stopped => match reply {
                Reply::Event { h, .. } => Action::Goes(Stage::StoppedDrops { h: *h }),
                _ => Action::Goes(Stage::Stopped),
            },
            Stage::Fresh => Action::Goes(Stage::Stopped),
            Stage::StoppedDrops { .. } => Action::Goes(Stage::Stopped),
        }
    }
}

impl FloorBrain {
    ghost use Rattle.df_floor_units.specs.Floor.{did, next, stepped, wanted_at, Goes, Takes, Hears, Acts, Passes};
    ghost use Rattle.df_floor_units.specs.Opening.{opening};
    ghost use Rattle.df_floor_units.specs.Floor.{adds, calls, reads};
    ghost use Rattle.std.specs.Prelude.{slice_get};
    ghost use Rattle.df_floor_units.specs.Hearing.{reads_of};
    ghost use Rattle.df_floor_units.specs.Telling.{parts_of};
    ghost use Rattle.df_floor_units.specs.code.Acting.{takes_memory};
    ghost use Rattle.std.specs.Prelude.{false};

    fn opening_want(&self, place: u32) -> Result<Want, NoMemory>
        ensures { IfOk result (λ w. as_want w ≡ calls (slice_get (opening self.now.kind) place)) }
    {
        match self.kind.opening_call(self.alloc, place)? {
            Some(call) => Ok(Want::Call(call)),
            None => Ok(Want::Wait),
        }
    }

    fn reading_want(&self, h: u32, sub: u32, place: u32) -> Want
        ensures { as_want result ≡ reads h (slice_get (reads_of self.now.kind sub) place) }
    {
        match self.kind.read_name(sub, place) {
            Some(name) => Want::Call(Call::ReadPart { h, name }),
            None => Want::Wait,
        }
    }

    fn adding_want(&self, h: u32, place: u32) -> Result<Want, NoMemory>
        ensures { IfOk result (λ w. as_want w
            ≡ adds h (slice_get (parts_of self.now.kind self.now.heard) place)) }
    {
        match self.kind.part(self.alloc, &self.heard, place)? {
            Some(draft) => Ok(Want::Call(Call::AddPart {
                h,
                label: draft.label,
                name: draft.name,
                value: draft.value,
            })),
            None => Ok(Want::Wait),
        }
    }

    /// What is wanted at a stage for which no memory is taken.
    fn plain_want(&self, stage: Stage) -> Want
        requires { takes_memory stage ≡ false }
        ensures { as_want result ≡ wanted_at self.now stage }
    {
        match stage {
            Stage::Reads { h, sub, place } => self.reading_want(h, sub, place),
            Stage::Drops { h } => Want::Call(Call::DropEvent { h }),
            Stage::Creates => Want::Call(Call::CreateEvent),
            Stage::Publishes { h } => Want::Call(Call::Publish { h }),
            Stage::StoppedDrops { h } => Want::Call(Call::DropEvent { h }),
            Stage::Opens { .. } => unreachable!(),
            Stage::Adds { .. } => unreachable!(),
            _ => Want::Wait,
        }
    }

    fn want_at(&self, stage: Stage) -> Result<Want, NoMemory>
        ensures { IfOk result (λ w. as_want w ≡ wanted_at self.now stage) }
    {
        match stage {
            Stage::Opens { place } => self.opening_want(place),
            Stage::Adds { h, place } => self.adding_want(h, place),
            stage => Ok(self.plain_want(stage)),
        }
    }

    fn go(&mut self, stage: Stage) -> Result<Want, NoMemory>
        ensures wants { IfOk result (λ w.
            (as_want w, self.new) ≡ stepped (did self.old (Goes stage))) }
        ensures unchanged { OnErr result (self.new ≡ self.old) }
    {
        let want = self.want_at(stage)?;
        self.stage = stage;
        Ok(want)
    }

    fn take(&mut self, h: u32, sub: u32) -> Want
        ensures { (as_want result, self.new) ≡ stepped (did self.old (Takes h sub)) }
    {
        self.heard = Heard::Nothing;
        self.stage = self.handed(h, sub);
        self.plain_want(self.stage)
    }

    fn hear(&mut self, h: u32, sub: u32, place: u32, parts: &[PartRead]) -> Result<Want, NoMemory>
        ensures wants { IfOk result (λ w.
            (as_want w, self.new) ≡ stepped (did self.old (Hears h sub place parts.now))) }
        ensures unchanged { OnErr result (self.new ≡ self.old) }
    {
        self.heard = self.kind.heard(sub, place, &self.heard, parts)?;
        self.stage = self.reading_behind(h, sub, place);
        Ok(self.plain_want(self.stage))
    }

    fn act(&mut self) -> Result<Want, NoMemory>
        ensures wants { IfOk result (λ w. (as_want w, self.new) ≡ stepped (did self.old Acts)) }
        ensures unchanged { OnErr result (self.new ≡ self.old) }
    {
        let heard = mem::replace(&mut self.heard, Heard::Nothing);
        match self.kind.act(heard) {
            Ok(heard) => {
                self.heard = heard;
                self.stage = self.told();
                Ok(self.plain_want(self.stage))
            }
            Err(heard) => {
                self.heard = heard;
                Err(NoMemory)
            }
        }
    }

    fn pass(&mut self) -> Want
        ensures { (as_want result, self.new) ≡ stepped (did self.old Passes) }
    {
        let heard = mem::replace(&mut self.heard, Heard::Nothing);
        self.kind.pass();
        self.heard = heard.passed();
        self.stage = self.told();
        self.plain_want(self.stage)
    }
}

impl StepFunction for FloorBrain {
    ghost use Rattle.df_floor_units.specs.Floor.{instance, next};

    ghost next = { next };

    ghost instance = { instance };
}

impl Brain for FloorBrain {
    ghost use Rattle.df_floor_units.specs.Units.{makes_no_unit};

    fn next(&mut self, last: &Last) -> Result<Want, NoMemory> {
        match last {
            Last::Start => {
                let stage = self.opened();
                self.go(stage)
            }
            Last::Reply(reply) => match self.action(reply) {
                Action::Goes(stage) => self.go(stage),
                Action::Takes { h, sub } => Ok(self.take(h, sub)),
                Action::Hears {
                    h,
                    sub,
                    place,
                    parts,
                } => self.hear(h, sub, place, parts),
                Action::Acts => self.act(),
                Action::Passes => Ok(self.pass()),
            },
        }
    }

    fn instance(&self, _sub: u32) -> Result<FloorBrain, NoMemory> {
        Ok(FloorBrain::begin(self.alloc, Kind::Watcher))
    }

    fn copy(&self) -> Result<FloorBrain, NoMemory> {
        Ok(FloorBrain {
            kind: self.kind.copy()?,
            heard: self.heard.copy()?,
            stage: self.stage,
            alloc: self.alloc,
        })
    }

    fn same(&self, other: &FloorBrain) -> bool {
        self.stage == other.stage && self.kind.same(&other.kind) && self.heard.same(&other.heard)
    }

    ghost makes_no_unit = { makes_no_unit };
}
