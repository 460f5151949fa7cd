// Tasks that answer questions, one step at a time.
use crate::answering::{ITEMS, Judged, Mixed, Open, judge};
use crate::breaks::Breaks;
use crate::due::{Due, due_in, with_inner};
use crate::modules::{add_builtins, add_module, introduce_module};
use dc_lower::Lowering;
use dc_model::{DeclKind, Question, Refused, Stop, Work, World};
use dc_scope::first_contradiction;
use dc_text::{ModuleText, Texts};
use dc_tree::{DeclId, PlaceId, TypeId, UnitId};
use indexmap::IndexMap;
use slab::Slab;
use std::collections::BTreeMap;

/// A question that is being answered.
#[derive(Drop)]
struct Task {
    question: Question,
    work: Work,
    /// What it waits for.
    need: Option<Question>,
    /// Its number in the order of beginning.
    number: u64,
    open: Open,
}

/// How a step ended.
#[derive(Clone, Copy, PartialEq, Eq)]
pub enum Progress {
    Answered,
    /// It waits for a question that is open.
    Waiting,
    /// It waits for a question that this step began.
    Stepped,
    Stopped,
}

/// Why there is no elaboration.
#[derive(Clone, Copy)]
pub enum Unfinished {
    Refused(Refused),
    NoMemory,
}

/// The questions about a program, those that are answered and those that are open.
#[derive(Drop)]
pub struct Engine {
    pub world: World,
    /// The texts of files and mixins, and how many bytes those of mixins have.
    pub mixed: Mixed,
    /// The code of functions that evaluations entered.
    pub lowering: Lowering,
    tasks: Slab<Task>,
    /// The tasks of questions that aren't answered.
    open: IndexMap<Question, usize>,
    /// The tasks that wait for a question.
    waiting: IndexMap<Question, Vec<usize>>,
    /// The tasks that may take a step, by their numbers.
    ready: BTreeMap<u64, usize>,
    begun: u64,
    items: u64,
    /// Units whose questions aren't due yet.
    units: Vec<UnitId>,
    stopped: Option<Unfinished>,
}

fn cause_of(stop: Stop) -> Unfinished {
    match stop {
        Stop::Failed(refused) => Unfinished::Refused(refused),
        Stop::Need(_, _) | Stop::NoMemory => Unfinished::NoMemory,
    }
}

/// Rule 8 at a question that waits for itself.
fn circle(question: Question) -> Stop {
    Stop::Failed(Refused {
        rule: 8,
        place: question.at,
        detail: None,
    })
}

impl Engine {
    /// Nothing is known yet. The texts are those of the program's files.
    pub fn new(world: World, texts: Texts) -> Engine {
        let alloc = world.alloc;
        Engine {
            world,
            mixed: Mixed { texts, bytes: 0 },
            lowering: Lowering::new(alloc),
            tasks: Slab::new(alloc),
            open: IndexMap::new(alloc),
            waiting: IndexMap::new(alloc),
            ready: BTreeMap::new(alloc),
            begun: 0,
            items: 0,
            units: Vec::new(alloc),
            stopped: None,
        }
    }

    /// Introduces the modules, whose names differ, and begins the questions that are due.
    pub fn start(&mut self, modules: &[ModuleText]) {
        if let Err(stop) = self.introduce(modules) {
            self.stop(stop);
        }
    }

    fn introduce(&mut self, modules: &[ModuleText]) -> Result<(), Stop> {
        add_builtins(&mut self.world)?;
        let mut units = Vec::new(self.world.alloc);
        for module in modules {
            let unit = add_module(&mut self.world, module.name)?;
            units.push(unit)?;
        }
        let mut breaks = Breaks::NONE;
        for module in modules {
            introduce_module(&mut self.world, *module, &mut breaks)?;
        }
        breaks.check()?;
        for unit in units.as_slice() {
            self.add_units(*unit)?;
        }
        self.begin_due()
    }

    /// The declarations of a unit, and of the structs in it, become questions.
    fn add_units(&mut self, unit: UnitId) -> Result<(), Stop> {
        for inner in with_inner(&self.world, unit)?.as_slice() {
            if let Some(slot) = self.world.units.get_mut(inner.0 as usize) {
                slot.is_named = true;
            }
            self.units.push(*inner)?;
        }
        Ok(())
    }

    fn stop(&mut self, stop: Stop) {
        if self.stopped.is_none() {
            self.stopped = Some(cause_of(stop));
        }
        self.ready.clear();
    }

    /// How many tasks may take a step.
    pub fn ready(&self) -> usize {
        self.ready.len()
    }

    /// Why it has stopped, where it has.
    pub fn stopped(&self) -> Option<Unfinished> {
        self.stopped
    }

    /// How many questions were begun.
    pub fn begins(&self) -> u64 {
        self.begun
    }

    /// Begins a question that is neither open nor answered.
    fn begin(&mut self, question: Question, work: Work) -> Result<bool, Stop> {
        if self.open.contains_key(&question) || self.world.answer(question).is_some() {
            return Ok(false);
        }
        let number = self.begun;
        self.begun = self.begun.saturating_add(1);
        let key = self.tasks.insert(Task {
            question,
            work,
            need: None,
            number,
            open: Open {
                body: None,
                evaluation: None,
            },
        })?;
        self.open.insert(question, key)?;
        self.ready.insert(number, key)?;
        Ok(true)
    }

    /// Begins what is due in the units that wait for that, until nothing is.
    fn begin_due(&mut self) -> Result<(), Stop> {
        let alloc = self.world.alloc;
        let units = std::mem::replace(&mut self.units, Vec::new(alloc));
        for unit in units.as_slice() {
            let (due, is_done) = due_in(&mut self.world, *unit)?;
            self.begin_all(due.as_slice())?;
            if !is_done {
                self.units.push(*unit)?;
            }
        }
        Ok(())
    }

    fn begin_all(&mut self, due: &[Due]) -> Result<(), Stop> {
        for one in due {
            self.begin(one.question, one.work)?;
        }
        Ok(())
    }

    /// The task that takes the step of that number among the ready ones.
    fn chosen(&self, choice: usize) -> Option<(u64, usize)> {
        self.ready
            .iter()
            .nth(choice)
            .map(|(number, key)| (*number, *key))
    }

    /// The ready task of that number, in the order of beginning, takes its step.
    pub fn advance(&mut self, choice: usize) -> Progress {
        let Some((number, key)) = self.chosen(choice) else {
            return Progress::Stopped;
        };
        match self.step(number, key) {
            Ok(progress) => progress,
            Err(stop) => {
                self.stop(stop);
                Progress::Stopped
            }
        }
    }

    fn step(&mut self, number: u64, key: usize) -> Result<Progress, Stop> {
        let left = ITEMS.saturating_sub(self.items);
        let Some(task) = self.tasks.get_mut(key) else {
            return Err(Stop::NoMemory);
        };
        let question = task.question;
        match judge(
            &mut self.world,
            &mut self.mixed,
            &mut self.lowering,
            task.work,
            &mut task.open,
            left,
        ) {
            Ok(judged) => {
                self.ready.remove(&number);
                self.answered(question, key, judged)?;
                Ok(Progress::Answered)
            }
            Err(Stop::Need(need, work)) if need == question => {
                // an initialiser is judged by the evaluation that it comes to; anything else goes in a circle
                let other = self.world.work(work)?;
                match (task.work, other) {
                    (Work::Initial(_), Work::Eval(_, _)) => {
                        task.work = other;
                        Ok(Progress::Waiting)
                    }
                    _ => Err(circle(question)),
                }
            }
            Err(Stop::Need(need, work)) => {
                self.ready.remove(&number);
                let work = self.world.work(work)?;
                self.wait(question, key, need, work)
            }
            Err(stop) => Err(stop),
        }
    }

    /// A task waits for a question, which is begun if it isn't open; rule 8 where that waits for the task.
    fn wait(
        &mut self,
        question: Question,
        key: usize,
        need: Question,
        work: Work,
    ) -> Result<Progress, Stop> {
        if let Some(task) = self.tasks.get_mut(key) {
            task.need = Some(need);
        }
        let is_new = self.begin(need, work)?;
        if !is_new && self.leads_to(need, question) {
            return Err(circle(question));
        }
        match self.waiting.get_mut(&need) {
            Some(keys) => keys.push(key)?,
            None => {
                let mut keys = Vec::new(self.world.alloc);
                keys.push(key)?;
                self.waiting.insert(need, keys)?;
            }
        }
        Ok(if is_new {
            Progress::Stepped
        } else {
            Progress::Waiting
        })
    }

    /// Whether the chain of needs from one question comes to another.
    fn leads_to(&self, from: Question, to: Question) -> bool {
        let mut at = from;
        for _ in 0..self.tasks.len().saturating_add(1) {
            if at == to {
                return true;
            }
            let next = match self.open.get(&at) {
                Some(key) => match self.tasks.get(*key) {
                    Some(task) => task.need,
                    None => None,
                },
                None => None,
            };
            match next {
                Some(need) => at = need,
                None => return false,
            }
        }
        false
    }

    /// Adds an answer: the tasks that wait for it are ready, and what becomes due is begun.
    fn answered(&mut self, question: Question, key: usize, judged: Judged) -> Result<(), Stop> {
        self.items = self.items.saturating_add(judged.items);
        self.mixed.bytes = self.mixed.bytes.saturating_add(judged.bytes);
        if self.items > ITEMS {
            return self.world.refuse(18, judged.at, None);
        }
        self.world.answers.insert(question, judged.answer)?;
        self.tasks.try_remove(key);
        self.open.swap_remove(&question);
        self.wake(question)?;
        if let Some(unit) = judged.named {
            self.add_units(unit)?;
        }
        if let Some(unit) = judged.settled {
            self.add_new_structs(unit)?;
        }
        if judged.named.is_some() || judged.settled.is_some() {
            self.begin_due()?;
        }
        Ok(())
    }

    /// The structs that a conditional introduced into a named unit become questions.
    fn add_new_structs(&mut self, unit: UnitId) -> Result<(), Stop> {
        if !self.world.unit(unit)?.is_named {
            return Ok(());
        }
        for inner in with_inner(&self.world, unit)?.as_slice() {
            if !self.world.unit(*inner)?.is_named {
                self.add_units(*inner)?;
            }
        }
        Ok(())
    }

    fn wake(&mut self, question: Question) -> Result<(), Stop> {
        let Some(keys) = self.waiting.swap_remove(&question) else {
            return Ok(());
        };
        for key in keys.as_slice() {
            let number = match self.tasks.get_mut(*key) {
                Some(task) => {
                    task.need = None;
                    task.number
                }
                None => continue,
            };
            self.ready.insert(number, *key)?;
        }
        Ok(())
    }

    /// The plain functions `main()` of all modules that give nothing or an `int`.
    fn mains(&self) -> Result<Vec<DeclId>, Stop> {
        let mut all = Vec::new(self.world.alloc);
        let Some(name) = self.world.pool.names.find(b"main") else {
            return Ok(all);
        };
        for unit in self.world.modules.values() {
            let mut at = self.world.rows.last_named(*unit, name);
            for _ in 0..u64::MAX {
                let Some(row) = at.and_then(|id| self.world.rows.get(id)) else {
                    break;
                };
                at = row.before;
                if let Some(decl) = row.decl {
                    if self.is_main(decl)? {
                        all.push(decl)?;
                    }
                }
            }
        }
        Ok(all)
    }

    fn is_main(&self, id: DeclId) -> Result<bool, Stop> {
        let decl = self.world.decl(id)?;
        if decl.kind != DeclKind::Function || decl.is_template {
            return Ok(false);
        }
        Ok(match self.world.pool.bodies.signature(id) {
            Some(signature) => {
                signature.len == 0
                    && (signature.result == TypeId::VOID || signature.result == TypeId::INT)
            }
            None => false,
        })
    }

    fn ending(&mut self) -> Result<DeclId, Stop> {
        if let Some(refused) = first_contradiction(&mut self.world)? {
            return Err(Stop::Failed(refused));
        }
        match self.mains()?.as_slice() {
            [main] => Ok(*main),
            _ => Err(Stop::Failed(Refused {
                rule: 20,
                place: PlaceId::NOWHERE,
                detail: None,
            })),
        }
    }

    /// The program's `main`, where nothing is ready any more and all questions are answered.
    pub fn finish(&mut self) -> Result<DeclId, Unfinished> {
        if let Some(stopped) = self.stopped {
            return Err(stopped);
        }
        if !self.open.is_empty() {
            return Err(Unfinished::NoMemory);
        }
        match self.ending() {
            Ok(main) => Ok(main),
            Err(stop) => Err(cause_of(stop)),
        }
    }
}
