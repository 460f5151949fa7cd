// All tables of a program that is elaborated.
use crate::{
    Answer, Arg, Args, Bind, BindId, BlockId, Cond, CondId, Decl, Dotted, Flow, FlowId,
    FunctionSet, Item, ItemId, ItemKind, Locals, Noted, Question, Refused, RowId, Rows, SetId,
    Stop, Symbol, Trace, Unit, UnitKind, Work, WorkId,
};
use dc_syntax::{Form, List, NameId, NodeId, Want, next_number};
use dc_tree::{DeclId, PlaceId, PlaceStep, Pool, SpotId, UnitId, Where};
use indexmap::{IndexMap, IndexSet};
use std::alloc::Global;

/// What is known of a program, and the tables to which judging adds.
#[derive(Drop)]
pub struct World {
    pub alloc: Global,
    pub pool: Pool,
    // ---- facts
    pub units: Vec<Unit>,
    pub decls: Vec<Decl>,
    pub rows: Rows,
    pub conds: Vec<Cond>,
    pub items: Vec<Item>,
    pub modules: IndexMap<NameId, UnitId>,
    pub versions: IndexSet<NameId>,
    pub answers: IndexMap<Question, Answer>,
    /// The symbols of rounds of `static foreach`.
    pub rounds: Vec<Symbol>,
    /// Declarations by their places.
    pub placed: IndexMap<PlaceId, DeclId>,
    // ---- what judging adds to
    pub locals: Locals,
    pub binds: Vec<Bind>,
    pub spot_binds: IndexMap<SpotId, BindId>,
    pub flows: Vec<Flow>,
    pub sets: Vec<FunctionSet>,
    pub set_members: Vec<u32>,
    pub args: Vec<Arg>,
    pub works: Vec<Work>,
    /// Dotted names of modules.
    pub paths: Vec<NameId>,
    pub dotted: Vec<Dotted>,
    pub instances: IndexMap<PlaceId, UnitId>,
    /// The blocks in which the members of enums are names.
    pub enum_blocks: IndexMap<DeclId, BlockId>,
    pub trace: Trace,
}

impl World {
    pub fn new(alloc: Global) -> Result<World, Want> {
        Ok(World {
            alloc,
            pool: Pool::new(alloc)?,
            units: Vec::new(alloc),
            decls: Vec::new(alloc),
            rows: Rows::new(alloc),
            conds: Vec::new(alloc),
            items: Vec::new(alloc),
            modules: IndexMap::new(alloc),
            versions: IndexSet::new(alloc),
            answers: IndexMap::new(alloc),
            rounds: Vec::new(alloc),
            placed: IndexMap::new(alloc),
            locals: Locals::new(alloc),
            binds: Vec::new(alloc),
            spot_binds: IndexMap::new(alloc),
            flows: Vec::new(alloc),
            sets: Vec::new(alloc),
            set_members: Vec::new(alloc),
            args: Vec::new(alloc),
            works: Vec::new(alloc),
            paths: Vec::new(alloc),
            dotted: Vec::new(alloc),
            instances: IndexMap::new(alloc),
            enum_blocks: IndexMap::new(alloc),
            trace: Trace {
                noted: Vec::new(alloc),
                found: Vec::new(alloc),
            },
        })
    }

    pub fn unit(&self, id: UnitId) -> Result<Unit, Stop> {
        match self.units.get(id.0 as usize) {
            Some(unit) => Ok(*unit),
            None => Err(Stop::NoMemory),
        }
    }

    pub fn decl(&self, id: DeclId) -> Result<Decl, Stop> {
        match self.decls.get(id.0 as usize) {
            Some(decl) => Ok(*decl),
            None => Err(Stop::NoMemory),
        }
    }

    pub fn cond(&self, id: CondId) -> Result<Cond, Stop> {
        match self.conds.get(id.0 as usize) {
            Some(cond) => Ok(*cond),
            None => Err(Stop::NoMemory),
        }
    }

    pub fn work(&self, id: WorkId) -> Result<Work, Stop> {
        match self.works.get(id.0 as usize) {
            Some(work) => Ok(*work),
            None => Err(Stop::NoMemory),
        }
    }

    pub fn add_unit(&mut self, unit: Unit) -> Result<UnitId, Want> {
        let n = next_number(self.units.len())?;
        self.units.push(unit)?;
        Ok(UnitId(n))
    }

    pub fn add_decl(&mut self, decl: Decl) -> Result<DeclId, Want> {
        let n = next_number(self.decls.len())?;
        self.decls.push(decl)?;
        Ok(DeclId(n))
    }

    pub fn add_work(&mut self, work: Work) -> Result<WorkId, Want> {
        let n = next_number(self.works.len())?;
        self.works.push(work)?;
        Ok(WorkId(n))
    }

    pub fn add_flow(&mut self, flow: Flow) -> Result<FlowId, Want> {
        let n = next_number(self.flows.len())?;
        self.flows.push(flow)?;
        Ok(FlowId(n))
    }

    pub fn add_args(&mut self, args: &[Arg]) -> Result<Args, Want> {
        let from = next_number(self.args.len())?;
        let len = next_number(args.len())?;
        self.args.extend_from_slice(args)?;
        Ok(Args { from, len })
    }

    pub fn args_of(&self, args: Args) -> &[Arg] {
        let from = args.from as usize;
        match self.args.get(from..from + args.len as usize) {
            Some(args) => args,
            None => &[],
        }
    }

    pub fn add_set(&mut self, set: FunctionSet) -> Result<SetId, Want> {
        let n = next_number(self.sets.len())?;
        self.sets.push(set)?;
        Ok(SetId(n))
    }

    pub fn set(&self, id: SetId) -> Result<FunctionSet, Stop> {
        match self.sets.get(id.0 as usize) {
            Some(set) => Ok(*set),
            None => Err(Stop::NoMemory),
        }
    }

    pub fn add_members(&mut self, members: &[u32]) -> Result<List, Want> {
        let from = next_number(self.set_members.len())?;
        let len = next_number(members.len())?;
        self.set_members.extend_from_slice(members)?;
        Ok(List { from, len })
    }

    pub fn members(&self, list: List) -> &[u32] {
        let from = list.from as usize;
        match self.set_members.get(from..from + list.len as usize) {
            Some(members) => members,
            None => &[],
        }
    }

    /// The innermost name of a `static foreach` around a spot.
    pub fn bind_of(&self, spot: SpotId) -> Option<BindId> {
        self.spot_binds.get(&spot).copied()
    }

    pub fn bind(&self, id: BindId) -> Option<Bind> {
        self.binds.get(id.0 as usize).copied()
    }

    pub fn add_bind(&mut self, spot: SpotId, bind: Bind) -> Result<(), Want> {
        let n = next_number(self.binds.len())?;
        self.binds.push(bind)?;
        self.spot_binds.insert(spot, BindId(n))?;
        Ok(())
    }

    pub fn paths_of(&self, list: List) -> &[NameId] {
        let from = list.from as usize;
        match self.paths.get(from..from + list.len as usize) {
            Some(paths) => paths,
            None => &[],
        }
    }

    pub fn add_paths(&mut self, paths: &[NameId]) -> Result<List, Want> {
        let from = next_number(self.paths.len())?;
        let len = next_number(paths.len())?;
        self.paths.extend_from_slice(paths)?;
        Ok(List { from, len })
    }

    pub fn dotted_of(&self, list: List) -> &[Dotted] {
        let from = list.from as usize;
        match self.dotted.get(from..from + list.len as usize) {
            Some(dotted) => dotted,
            None => &[],
        }
    }

    pub fn add_dotted(&mut self, dotted: &[Dotted]) -> Result<List, Want> {
        let from = next_number(self.dotted.len())?;
        let len = next_number(dotted.len())?;
        self.dotted.extend_from_slice(dotted)?;
        Ok(List { from, len })
    }

    /// The module in which a spot lies.
    pub fn module_of(&self, spot: SpotId) -> PlaceId {
        let mut place = self.pool.places.spot(spot).text;
        for _ in 0..u64::MAX {
            if let PlaceStep::Module(_) = self.pool.places.step(place) {
                break;
            }
            place = self.pool.places.before(place);
        }
        place
    }

    /// The place of a unit: of a module itself, else where its declaration stands.
    pub fn place_of(&mut self, unit: UnitId) -> Result<PlaceId, Stop> {
        let known = self.unit(unit)?;
        match known.kind {
            UnitKind::Module => Ok(self.pool.places.spot(known.spot).text),
            UnitKind::Struct | UnitKind::Instance => Ok(self.pool.places.place(known.at)?),
        }
    }

    /// A broken rule.
    pub fn refuse<T>(&mut self, rule: u8, at: Where, detail: Option<NameId>) -> Result<T, Stop> {
        let place = self.pool.places.place(at)?;
        Err(Stop::Failed(Refused {
            rule,
            place,
            detail,
        }))
    }

    /// What a template's parameter of that name stands for in an instance.
    pub fn parameter(&self, unit: UnitId, name: NameId) -> Result<Option<Symbol>, Stop> {
        let known = self.unit(unit)?;
        let (Some(args), Some(template)) = (known.args, known.decl) else {
            return Ok(None);
        };
        let Some(parameters) = self.parameters_of(template)? else {
            return Ok(None);
        };
        let names = self.pool.syntax.numbers(parameters);
        for (n, arg) in names.iter().zip(self.args_of(args).iter()) {
            if self.parameter_name(NodeId(*n)) == Some(name) {
                return Ok(arg.symbol());
            }
        }
        Ok(None)
    }

    /// The template parameters of a declaration.
    pub fn parameters_of(&self, decl: DeclId) -> Result<Option<List>, Stop> {
        let syntax = &self.pool.syntax;
        Ok(match syntax.node(self.decl(decl)?.node).form {
            Form::Function(n) => syntax
                .functions
                .get(n as usize)
                .and_then(|f| f.template_parameters),
            Form::Struct(n) | Form::Template(n) => {
                syntax.structs.get(n as usize).and_then(|s| s.parameters)
            }
            Form::Constant(n) => syntax.constants.get(n as usize).and_then(|c| c.parameters),
            Form::Alias(n) => syntax.aliases.get(n as usize).and_then(|a| a.parameters),
            _ => None,
        })
    }

    /// The name of a template's parameter.
    pub fn parameter_name(&self, n: NodeId) -> Option<NameId> {
        match self.pool.syntax.node(n).form {
            Form::TypeParameter(name)
            | Form::ValueParameter(_, name)
            | Form::AliasParameter(name) => { Some(name) }
            _ => None,
        }
    }

    /// Names of a `static foreach` around one spot are those around another.
    pub fn inherit_binds(&mut self, from: SpotId, to: SpotId) -> Result<(), Want> {
        if let (Some(bind), None) = (self.bind_of(from), self.bind_of(to)) {
            self.spot_binds.insert(to, bind)?;
        }
        Ok(())
    }

    /// The answer of a question that is answered.
    pub fn answer(&self, question: Question) -> Option<Answer> {
        self.answers.get(&question).copied()
    }

    /// The answer of a question, or the need for it.
    pub fn ask(&mut self, question: Question, work: Work) -> Result<Answer, Stop> {
        match self.answer(question) {
            Some(answer) => Ok(answer),
            None => {
                let work = self.add_work(work)?;
                Err(Stop::Need(question, work))
            }
        }
    }

    /// The declarations of a unit in text order, as far as they are introduced.
    pub fn declarations(&self, unit: UnitId) -> Result<Vec<DeclId>, Stop> {
        let mut all = Vec::new(self.alloc);
        let mut work = Vec::new(self.alloc);
        if let Some(first) = self.unit(unit)?.first {
            work.push(first)?;
        }
        for _ in 0..u64::MAX {
            let Some(id) = work.pop() else {
                break;
            };
            let Some(item) = self.items.get(id.0 as usize).copied() else {
                continue;
            };
            if let Some(next) = item.next {
                work.push(next)?;
            }
            match item.kind {
                ItemKind::Decl(decl) => all.push(decl)?,
                ItemKind::Cond(_, Some(inner)) => work.push(inner)?,
                ItemKind::Cond(_, None) => {}
            }
        }
        Ok(all)
    }

    pub fn add_item(&mut self, item: Item) -> Result<ItemId, Want> {
        let n = next_number(self.items.len())?;
        self.items.push(item)?;
        Ok(ItemId(n))
    }

    pub fn note(&mut self, noted: Noted, rows: &[RowId]) -> Result<(), Want> {
        let from = next_number(self.trace.found.len())?;
        let len = next_number(rows.len())?;
        self.trace.found.extend_from_slice(rows)?;
        self.trace.noted.push(Noted { from, len, ..noted })?;
        Ok(())
    }
}
