//! Queues: lists of commands with a limit, and what applying them does.
ghost use Rattle.std.specs.Prelude.{◌≡◌, ◌≢◌, ◌<◌, ◌≤◌, ◌^◌, ◌+◌, ◌++◌, length, IfErr, IfOk, IfSome, OnOk, OnErr, MatchResult, Some, None, Ok, Err, if◌then◌else◌};
ghost use Rattle.std.specs.Prelude.{vec_len, vec_capacity};
ghost use Rattle.scene_kinds.specs.Answers.{Answers, refusal_of};
ghost use Rattle.scene_kinds.specs.Fault.{refusal_text};
ghost use Rattle.scene_kinds.specs.declared.fault.Fault.TheVariants.{NoMemory, QueueFull};
ghost use Rattle.scene_commands.specs.declared.command.Command.TheVariants.{Spawn};
ghost use Rattle.scene_commands.specs.declared.target.Target.TheVariants.{New};
ghost use Rattle.scene_machine.specs.Queue.{and_spawned, play, reached, refused_at, request, whole};
ghost use Rattle.scene_model.specs.Perform.{Spawn as SpawnCells, DespawnRecursiveIfAlive, Insert, PutResource, SetParent, perform};
ghost use Rattle.scene_machine.specs.Frame.{queue as one_queue, queues_from};
ghost use Rattle.scene_world.specs.Room.{IsWider};
ghost use Rattle.scene_world.specs.Stage.{act};
ghost use Rattle.scene_queue.specs.Queue.{usual_limit, empty_queue, push_of, refusal_in, spawned_by, spawns, IsPassed, Stops};
ghost use Rattle.scene_queue.specs.Requests.{on_both, request_of, requests};
ghost use Rattle.scene_queue.specs.Frames.{frame_of, lone_frame, ArePassed};

use scene_commands::{Command, Components, Target};
use scene_kinds::{Entity, Fault, Place, Refusal, Text, Value};
use scene_world::Stage;
use std::alloc::{AllocError, Global};
use std::error::Error;
use std::fmt;
use std::marker::Model;

/// How many commands a queue takes for which no other limit is given.
const USUAL_LIMIT: u32 = 67_108_864;

/// What a queue didn't take, handed back, and why.
///
/// Where only the refusal counts, `?` makes a `Refusal` of it, and drops what was handed back.
#[derive(Drop, Debug)]
pub struct Returned<T> {
    pub refusal: Refusal,
    pub value: T,
}

/// The refusal; what was handed back is dropped.
impl<T: Drop> From<Returned<T>> for Refusal {
    ghost from_gives = { λ returned r. r ≡ returned.refusal };

    fn from(returned: Returned<T>) -> Refusal {
        returned.refusal
    }
}

/// The refusal's text.
impl<T> fmt::Display for Returned<T> {
    ghost output = { λ returned. Some (refusal_text returned.refusal) };

    fn fmt<W: fmt::Write>(&self, f: &mut fmt::Formatter<W>) -> fmt::Result {
        write!(f, "{}", self.refusal)
    }
}

impl<T: fmt::Debug + Drop> Error for Returned<T> {}

/// Commands, first to last, up to a limit (docs/MODEL.md, "The rule of frames"). Contracts see the list and the
/// limit.
#[derive(Debug)]
pub struct Queue {
    alloc: Global,
    commands: Vec<Command>,
    limit: u32,
    /// How many of the commands are spawns.
    spawned: u32,
}

impl Drop for Queue {
    fn drop(self) {
        let Queue {
            alloc: _,
            commands: _,
            limit: _,
            spawned: _,
        } = self;
    }
}

impl Model for Queue {
    ghost use Rattle.std.specs.Prelude.{◌≡◌, ◌<◌, ◌≤◌, length};
    ghost use Rattle.scene_queue.specs.Queue.{QueueState, spawns};

    ghost Value = { QueueState };

    ghost view = { λ q. record { limit = q.limit; commands = q.commands.items } };

    ghost invariant = { λ q. (length q.commands.items ≤ q.limit) × (q.spawned ≡ spawns q.commands.items)
        × (q.spawned ≤ length q.commands.items) × (q.limit < 4294967296) };
}

/// Whether a command spawns an entity.
fn is_spawn(command: &Command) -> bool
    ensures { spawned_by command.now ≡ (if result then 1 else 0) }
{
    match command {
        Command::Spawn(_) => true,
        _ => false,
    }
}

/// Makes room for one more command, where the limit allows one. Most queues have one command, so the first takes the
/// room of one.
fn make_room(commands: &mut Vec<Command>, limit: u32) -> Result<(), Refusal>
    ensures items { commands.new.items ≡ commands.old.items }
    ensures room { OnOk result (vec_len commands.new < vec_capacity commands.new) }
    ensures few { OnOk result (length commands.old.items < limit) }
    ensures refused { IfErr result (λ r. r ≢ refusal_of NoMemory → (r ≡ refusal_of QueueFull) × (limit ≤ length commands.old.items)) }
{
    if commands.len() >= limit as usize {
        return Err(Refusal::from(Fault::QueueFull));
    }
    if commands.is_empty() {
        commands.reserve_exact(1)?;
    } else {
        commands.reserve(1)?;
    }
    Ok(())
}

/// Equal commands in the same order, or an error where no memory was found.
fn clone_commands(alloc: Global, commands: &[Command]) -> Result<Vec<Command>, AllocError>
    ensures { IfOk result (λ copies. copies.items ≡ commands.now) }
{
    let mut copies = Vec::new(alloc);
    for command in commands {
        copies.push(command.try_clone()?)?;
    }
    Ok(copies)
}

/// Gives back the memory that a command's list of components has beyond what these need.
fn shrink(alloc: Global, command: &mut Command)
    ensures { command.new ≡ command.old }
{
    if let Command::Spawn(components) = command {
        let nothing = Components::from(Vec::new(alloc));
        let mut cells = std::mem::replace(components, nothing).into_vec();
        cells.shrink_to_fit();
        *components = Components::from(cells);
    }
}

/// The same of each command of a list.
fn shrink_each(alloc: Global, commands: &mut [Command])
    ensures { commands.new ≡ commands.old }
{
    for command in commands.iter_mut() {
        shrink(alloc, command);
    }
}

impl Queue {
    /// A queue without commands, which takes at most 67,108,864. It takes no memory.
    pub fn new(alloc: Global) -> Queue
        ensures { result ≡ empty_queue usual_limit }
    {
        Queue::with_limit(alloc, USUAL_LIMIT)
    }

    /// A queue without commands, which takes at most `limit`. It takes no memory.
    pub fn with_limit(alloc: Global, limit: u32) -> Queue
        ensures { result ≡ empty_queue limit }
    {
        Queue {
            alloc,
            commands: Vec::new(alloc),
            limit,
            spawned: 0,
        }
    }

    /// The commands, first to last.
    pub fn commands(&self) -> &[Command]
        ensures { result.now ≡ self.now.commands }
    {
        self.commands.as_slice()
    }

    /// Puts a command last.
    ///
    /// Refused, in this order, and then the command is handed back and the queue is as it was: `QueueFull` where it has
    /// as many commands as it may; `NoMemory`.
    #[inline(always)]
    pub fn push(&mut self, command: Command) -> Result<(), Returned<Command>>
        ensures answer { Answers (refusal_in result) self.old self.new (push_of self.old command tt) }
        ensures back { IfErr result (λ r. r.value ≡ command) }
    {
        match make_room(&mut self.commands, self.limit) {
            Ok(()) => {
                let more = u32::from(is_spawn(&command));
                self.commands.push_reserved(command);
                self.spawned += more;
                Ok(())
            }
            Err(refusal) => Err(Returned {
                refusal,
                value: command,
            }),
        }
    }

    /// Puts a spawn last, and gives the local name of the entity that it will spawn: `New(k)` is the k-th, from 0.
    ///
    /// Refused, in this order, and then the components are handed back and the queue is as it was: `QueueFull` where it
    /// has as many commands as it may; `NoMemory`.
    pub fn spawn(&mut self, components: Components) -> Result<Target, Returned<Components>>
        ensures answer { Answers (refusal_in result) self.old self.new (push_of self.old (Spawn components) (New (spawns self.old.commands))) }
        ensures back { IfErr result (λ r. r.value ≡ components) }
    {
        match make_room(&mut self.commands, self.limit) {
            Ok(()) => {
                let local = Target::New(self.spawned);
                self.commands.push_reserved(Command::Spawn(components));
                self.spawned += 1;
                Ok(local)
            }
            Err(refusal) => Err(Returned {
                refusal,
                value: components,
            }),
        }
    }

    /// Gives back the memory that the queue has beyond what its commands and their components need: for a queue that is
    /// to be kept. The commands stay as they are. It has no error, and may cost a move of them.
    pub fn shrink_to_fit(&mut self)
        ensures { self.new ≡ self.old }
    {
        shrink_each(self.alloc, self.commands.as_mut_slice());
        self.commands.shrink_to_fit();
    }

    /// An equal queue, or an error where no memory was found. It costs the commands.
    pub fn try_clone(&self) -> Result<Queue, AllocError>
        ensures { IfOk result (λ copy. copy ≡ self.now) }
    {
        Ok(Queue {
            alloc: self.alloc,
            commands: clone_commands(self.alloc, self.commands.as_slice())?,
            limit: self.limit,
            spawned: self.spawned,
        })
    }
}

/// The answer of a command that spawns nothing.
fn no_entity(done: Result<(), Refusal>) -> Result<Option<Entity>, Refusal>
    ensures answer { MatchResult done (λ _. result ≡ Ok None) (λ r. result ≡ Err r) }
    ensures none { IfOk result (λ made. made ≡ None) }
{
    match done {
        Ok(()) => Ok(None),
        Err(refusal) => Err(refusal),
    }
}

/// Spawns an entity with these components.
#[inline(always)]
fn spawn_owned<S: Stage>(components: Components, stage: &mut S) -> Result<Option<Entity>, Refusal>
    ensures answer { Answers result (S.seen stage.old) (S.seen stage.new)
        (act S.note (S.seen stage.old) (SpawnCells components)) }
    ensures opening { S.opening stage.new ≡ S.opening stage.old }
    ensures wide { IsWider (S.room stage.old) (S.room stage.new) }
{
    match stage.spawn(components.into_vec()) {
        Ok(entity) => Ok(Some(entity)),
        Err(refusal) => Err(refusal),
    }
}

/// Spawns an entity with copies of these components.
fn spawn<S: Stage>(components: &Components, stage: &mut S) -> Result<Option<Entity>, Refusal>
    ensures answer { Answers result (S.seen stage.old) (S.seen stage.new)
        (act S.note (S.seen stage.old) (SpawnCells components.now)) }
    ensures opening { S.opening stage.new ≡ S.opening stage.old }
    ensures wide { IsWider (S.room stage.old) (S.room stage.new) }
{
    match stage.spawn_lent(components.as_slice()) {
        Ok(entity) => Ok(Some(entity)),
        Err(refusal) => Err(refusal),
    }
}

/// Despawns an entity and all below it, where it is alive.
fn despawn_if_alive<S: Stage>(entity: Entity, stage: &mut S) -> Result<Option<Entity>, Refusal>
    ensures answer { Answers result (S.seen stage.old) (S.seen stage.new)
        (act S.note (S.seen stage.old) (DespawnRecursiveIfAlive entity)) }
    ensures none { IfOk result (λ made. made ≡ None) }
    ensures opening { S.opening stage.new ≡ S.opening stage.old }
    ensures wide { IsWider (S.room stage.old) (S.room stage.new) }
{
    if stage.world().is_alive(entity) {
        no_entity(stage.despawn_recursive(entity))
    } else {
        Ok(None)
    }
}

/// Gives an entity a copy of a value as its component of a kind.
fn insert<S: Stage>(
    entity: Entity,
    kind: u8,
    value: &Value,
    stage: &mut S,
) -> Result<Option<Entity>, Refusal>
    ensures answer { Answers result (S.seen stage.old) (S.seen stage.new)
        (act S.note (S.seen stage.old) (Insert entity kind value.now)) }
    ensures none { IfOk result (λ made. made ≡ None) }
    ensures opening { S.opening stage.new ≡ S.opening stage.old }
    ensures wide { IsWider (S.room stage.old) (S.room stage.new) }
{
    let copy = value.try_clone()?;
    no_entity(stage.insert(entity, kind, copy))
}

/// Puts a copy of a value at a name.
fn put_resource<S: Stage>(
    name: &Text,
    value: &Value,
    stage: &mut S,
) -> Result<Option<Entity>, Refusal>
    ensures answer { Answers result (S.seen stage.old) (S.seen stage.new)
        (act S.note (S.seen stage.old) (PutResource name.now value.now)) }
    ensures none { IfOk result (λ made. made ≡ None) }
    ensures opening { S.opening stage.new ≡ S.opening stage.old }
    ensures wide { IsWider (S.room stage.old) (S.room stage.new) }
{
    let copy = value.try_clone()?;
    no_entity(stage.put_resource(name.as_str(), copy))
}

/// Makes the first target the last child of the second.
fn link<S: Stage>(
    child: Target,
    parent: Target,
    spawned: &[Entity],
    stage: &mut S,
) -> Result<Option<Entity>, Refusal>
    ensures answer { Answers result (S.seen stage.old) (S.seen stage.new)
        (request (act S.note) (on_both child parent SetParent) (reached (S.seen stage.old) spawned.now)) }
    ensures none { IfOk result (λ made. made ≡ None) }
    ensures opening { S.opening stage.new ≡ S.opening stage.old }
    ensures wide { IsWider (S.room stage.old) (S.room stage.new) }
{
    let (child, parent) = Target::entities(child, parent, spawned)?;
    match stage.set_parent(child, parent) {
        Ok(()) => Ok(None),
        Err(refusal) => Err(refusal),
    }
}

/// Does one command of a queue that has spawned these entities.
fn do_command<S: Stage>(
    command: &Command,
    spawned: &[Entity],
    stage: &mut S,
) -> Result<Option<Entity>, Refusal>
    ensures answer { Answers result (S.seen stage.old) (S.seen stage.new)
        (request (act S.note) (request_of command.now) (reached (S.seen stage.old) spawned.now)) }
    ensures made { IfOk result (λ made. IfSome made (λ _. spawned_by command.now ≡ 1)) }
    ensures opening { S.opening stage.new ≡ S.opening stage.old }
    ensures wide { IsWider (S.room stage.old) (S.room stage.new) }
{
    match command {
        Command::Spawn(components) => spawn(components, stage),
        Command::Despawn(target) => no_entity(stage.despawn(target.entity(spawned)?)),
        Command::DespawnAll(target) => {
            no_entity(stage.despawn_recursive(target.entity(spawned)?))
        }
        Command::DespawnAllIfAlive(target) => despawn_if_alive(target.entity(spawned)?, stage),
        Command::Insert(target, kind, value) => {
            insert(target.entity(spawned)?, *kind, value, stage)
        }
        Command::Remove(target, kind) => no_entity(stage.remove(target.entity(spawned)?, *kind)),
        Command::SetParent(child, parent) => link(*child, *parent, spawned, stage),
        Command::RemoveParent(child) => no_entity(stage.remove_parent(child.entity(spawned)?)),
        Command::PutResource(name, value) => put_resource(name, value, stage),
        Command::RemoveResource(name) => no_entity(stage.remove_resource(name.as_str())),
    }
}

/// Does one command of a queue that is used up. The components and values that it gives aren't copied.
#[inline(always)]
fn do_owned<S: Stage>(
    command: Command,
    spawned: &[Entity],
    stage: &mut S,
) -> Result<Option<Entity>, Refusal>
    ensures answer { Answers result (S.seen stage.old) (S.seen stage.new)
        (request (act S.note) (request_of command) (reached (S.seen stage.old) spawned.now)) }
    ensures made { IfOk result (λ made. IfSome made (λ _. spawned_by command ≡ 1)) }
    ensures opening { S.opening stage.new ≡ S.opening stage.old }
    ensures wide { IsWider (S.room stage.old) (S.room stage.new) }
{
    match command {
        Command::Spawn(components) => spawn_owned(components, stage),
        Command::Insert(target, kind, value) => {
            no_entity(stage.insert(target.entity(spawned)?, kind, value))
        }
        Command::PutResource(name, value) => no_entity(stage.put_resource(name.as_str(), value)),
        other => do_command(&other, spawned, stage),
    }
}

/// Makes room for what a command will spawn, if anything, or finds no memory: before it is done, so that nothing is
/// done that can't be noted. The first takes the room of one.
fn make_room_for(command: &Command, spawned: &mut Vec<Entity>) -> Result<(), AllocError>
    ensures items { spawned.new.items ≡ spawned.old.items }
    ensures room { OnOk result (vec_len spawned.new + spawned_by command.now ≤ vec_capacity spawned.new) }
{
    if !is_spawn(command) {
        return Ok(());
    }
    if spawned.is_empty() {
        spawned.reserve_exact(1)
    } else {
        spawned.reserve(1)
    }
}

/// Adds what a command spawned, if anything, where room was made for it.
fn note_spawned(spawned: &mut Vec<Entity>, made: Option<Entity>)
    requires { IfSome made (λ _. vec_len spawned.old < vec_capacity spawned.old) }
    ensures { spawned.new.items ≡ and_spawned spawned.old.items made }
{
    if let Some(entity) = made {
        spawned.push_reserved(entity);
    }
}

/// Entities and then others, or an error where no memory was found. Where there are none before, the others stay where
/// they are.
fn and_made(spawned: Vec<Entity>, made: Vec<Entity>) -> Result<Vec<Entity>, AllocError>
    ensures { IfOk result (λ both. both.items ≡ spawned.items ++ made.items) }
{
    if spawned.is_empty() {
        return Ok(made);
    }
    let mut both = spawned;
    let mut made = made;
    both.append(&mut made)?;
    Ok(both)
}

/// A refusal with the place of its command in a queue of a frame. Want of memory has none.
fn placed(refusal: Refusal, queue: u32, command: u32) -> Refusal
    ensures { result ≡ refused_at queue command refusal.fault }
{
    match refusal.fault {
        Fault::NoMemory => Refusal::from(Fault::NoMemory),
        fault => Refusal {
            fault,
            place: Some(Place {
                phase: 0,
                queue,
                command,
            }),
        },
    }
}

/// Applies the commands of a queue of this number one after another; see `Queue::apply`.
fn apply_commands<S: Stage>(
    alloc: Global,
    queue: u32,
    commands: &[Command],
    stage: &mut S,
) -> Result<Vec<Entity>, Refusal>
    requires { length commands.now < 2 ^ 32 }
    ensures whole { IfOk result (λ spawned. play (act S.note) (requests commands.now) (S.seen stage.old)
        ≡ whole (reached (S.seen stage.new) spawned.items)) }
    ensures passed { OnErr result (IsPassed (act S.note) (requests commands.now) (S.seen stage.old) (S.seen stage.new)) }
    ensures refused { IfErr result (λ r. r ≢ refusal_of NoMemory
        → Stops (act S.note) queue (requests commands.now) (S.seen stage.old) (S.seen stage.new) r) }
    ensures opening { S.opening stage.new ≡ S.opening stage.old }
    ensures wide { IsWider (S.room stage.old) (S.room stage.new) }
{
    let mut spawned = Vec::new(alloc);
    let mut at: u32 = 0;
    for command in commands {
        if make_room_for(command, &mut spawned).is_err() {
            return Err(Refusal::from(Fault::NoMemory));
        }
        match do_command(command, spawned.as_slice(), stage) {
            Ok(made) => note_spawned(&mut spawned, made),
            Err(refusal) => return Err(placed(refusal, queue, at)),
        }
        at += 1;
    }
    Ok(spawned)
}

/// Applies the commands of a queue of this number one after another, and uses them up.
fn apply_owned_commands<S: Stage>(
    alloc: Global,
    queue: u32,
    commands: Vec<Command>,
    stage: &mut S,
) -> Result<Vec<Entity>, Refusal>
    requires { length commands.items < 2 ^ 32 }
    ensures whole { IfOk result (λ spawned. play (act S.note) (requests commands.items) (S.seen stage.old)
        ≡ whole (reached (S.seen stage.new) spawned.items)) }
    ensures passed { OnErr result (IsPassed (act S.note) (requests commands.items) (S.seen stage.old) (S.seen stage.new)) }
    ensures refused { IfErr result (λ r. r ≢ refusal_of NoMemory
        → Stops (act S.note) queue (requests commands.items) (S.seen stage.old) (S.seen stage.new) r) }
    ensures opening { S.opening stage.new ≡ S.opening stage.old }
    ensures wide { IsWider (S.room stage.old) (S.room stage.new) }
{
    let mut spawned = Vec::new(alloc);
    let mut at: u32 = 0;
    for command in commands {
        if make_room_for(&command, &mut spawned).is_err() {
            return Err(Refusal::from(Fault::NoMemory));
        }
        match do_owned(command, spawned.as_slice(), stage) {
            Ok(made) => note_spawned(&mut spawned, made),
            Err(refusal) => return Err(placed(refusal, queue, at)),
        }
        at += 1;
    }
    Ok(spawned)
}

impl Queue {
    /// Applies the commands one after another to a world, or to another stage, and gives the entities that they
    /// spawned, in order (docs/MODEL.md, "The rule of frames"). It costs what the commands cost, and a copy of the
    /// components and values that they give.
    ///
    /// Refused: the first command's `BadLocal`, where a target isn't spawned yet, or else its own refusal, with the
    /// phase 0, the queue 0 and its place in this queue; `NoMemory` without a place. After a refusal the stage is as
    /// the commands before left it. The world to which it can be taken back, if it keeps a way back, stays,
    /// and no room is lost.
    pub fn apply<S: Stage>(&self, stage: &mut S) -> Result<Vec<Entity>, Refusal>
        ensures whole { IfOk result (λ spawned. play (act S.note) (requests self.now.commands) (S.seen stage.old)
            ≡ whole (reached (S.seen stage.new) spawned.items)) }
        ensures passed { OnErr result (IsPassed (act S.note) (requests self.now.commands) (S.seen stage.old) (S.seen stage.new)) }
        ensures refused { IfErr result (λ r. r ≢ refusal_of NoMemory
            → Stops (act S.note) 0 (requests self.now.commands) (S.seen stage.old) (S.seen stage.new) r) }
        ensures world { IfOk result (λ spawned. one_queue perform 0 (requests self.now.commands) (S.seen stage.old).world
            ≡ Ok (spawned.items, (S.seen stage.new).world)) }
        ensures world_refused { IfErr result (λ r. r ≢ refusal_of NoMemory
            → one_queue perform 0 (requests self.now.commands) (S.seen stage.old).world ≡ Err r) }
        ensures opening { S.opening stage.new ≡ S.opening stage.old }
        ensures wide { IsWider (S.room stage.old) (S.room stage.new) }
    {
        self.apply_at(0, stage)
    }

    /// The same as the queue of this number in a frame, which the place of a refusal tells.
    fn apply_at<S: Stage>(&self, queue: u32, stage: &mut S) -> Result<Vec<Entity>, Refusal>
        ensures whole { IfOk result (λ spawned. play (act S.note) (requests self.now.commands) (S.seen stage.old)
            ≡ whole (reached (S.seen stage.new) spawned.items)) }
        ensures passed { OnErr result (IsPassed (act S.note) (requests self.now.commands) (S.seen stage.old) (S.seen stage.new)) }
        ensures refused { IfErr result (λ r. r ≢ refusal_of NoMemory
            → Stops (act S.note) queue (requests self.now.commands) (S.seen stage.old) (S.seen stage.new) r) }
        ensures opening { S.opening stage.new ≡ S.opening stage.old }
        ensures wide { IsWider (S.room stage.old) (S.room stage.new) }
    {
        apply_commands(self.alloc, queue, self.commands.as_slice(), stage)
    }

    /// The same, and the queue is used up.
    fn apply_owned_at<S: Stage>(self, queue: u32, stage: &mut S) -> Result<Vec<Entity>, Refusal>
        ensures whole { IfOk result (λ spawned. play (act S.note) (requests self.commands) (S.seen stage.old)
            ≡ whole (reached (S.seen stage.new) spawned.items)) }
        ensures passed { OnErr result (IsPassed (act S.note) (requests self.commands) (S.seen stage.old) (S.seen stage.new)) }
        ensures refused { IfErr result (λ r. r ≢ refusal_of NoMemory
            → Stops (act S.note) queue (requests self.commands) (S.seen stage.old) (S.seen stage.new) r) }
        ensures opening { S.opening stage.new ≡ S.opening stage.old }
        ensures wide { IsWider (S.room stage.old) (S.room stage.new) }
    {
        let Queue {
            alloc,
            commands,
            limit: _,
            spawned: _,
        } = self;
        apply_owned_commands(alloc, queue, commands, stage)
    }
}

/// Applies the queues of a frame one after another to a world, or to another stage, and gives the entities that they
/// spawned, in order (docs/MODEL.md, "The rule of frames"). The tick of the frame is raised before, by the caller. It
/// costs what the commands cost, and a copy of the components and values that they give.
///
/// Refused: the first command's `BadLocal`, where a target isn't spawned yet, or else its own refusal, with the phase
/// 0, its queue's place and its own in that queue; `NoMemory` without a place. After a refusal the stage is as the
/// commands before left it. The world to which it can be taken back, if it keeps a way back, stays,
/// and no room is lost.
pub fn apply_all<S: Stage>(
    alloc: Global,
    queues: &[Queue],
    stage: &mut S,
) -> Result<Vec<Entity>, Refusal>
    requires { length queues.now ≤ 4294967295 }
    ensures whole { IfOk result (λ spawned. queues_from (act S.note) 0 (frame_of queues.now) (S.seen stage.old)
        ≡ Ok (spawned.items, S.seen stage.new)) }
    ensures refused { IfErr result (λ r. r ≢ refusal_of NoMemory → queues_from (act S.note) 0 (frame_of queues.now) (S.seen stage.old) ≡ Err r) }
    ensures passed { OnErr result (ArePassed (act S.note) (frame_of queues.now) (S.seen stage.old) (S.seen stage.new)) }
    ensures world { IfOk result (λ spawned. queues_from perform 0 (frame_of queues.now) (S.seen stage.old).world
        ≡ Ok (spawned.items, (S.seen stage.new).world)) }
    ensures world_refused { IfErr result (λ r. r ≢ refusal_of NoMemory
        → queues_from perform 0 (frame_of queues.now) (S.seen stage.old).world ≡ Err r) }
    ensures opening { S.opening stage.new ≡ S.opening stage.old }
    ensures wide { IsWider (S.room stage.old) (S.room stage.new) }
{
    let mut spawned = Vec::new(alloc);
    let mut at: u32 = 0;
    for queue in queues {
        match queue.apply_at(at, stage) {
            Ok(made) => match and_made(spawned, made) {
                Ok(both) => spawned = both,
                Err(AllocError) => return Err(Refusal::from(Fault::NoMemory)),
            },
            Err(refusal) => return Err(refusal),
        }
        at += 1;
    }
    Ok(spawned)
}

/// Applies the queues of a frame as `apply_all` does, and uses them up: the components that spawns give aren't copied.
///
/// Refused: what `apply_all` refuses, and the stage is then as after that.
pub fn apply_owned<S: Stage>(
    alloc: Global,
    queues: Vec<Queue>,
    stage: &mut S,
) -> Result<Vec<Entity>, Refusal>
    requires { length queues.items ≤ 4294967295 }
    ensures whole { IfOk result (λ spawned. queues_from (act S.note) 0 (frame_of queues.items) (S.seen stage.old)
        ≡ Ok (spawned.items, S.seen stage.new)) }
    ensures refused { IfErr result (λ r. r ≢ refusal_of NoMemory → queues_from (act S.note) 0 (frame_of queues.items) (S.seen stage.old) ≡ Err r) }
    ensures passed { OnErr result (ArePassed (act S.note) (frame_of queues.items) (S.seen stage.old) (S.seen stage.new)) }
    ensures world { IfOk result (λ spawned. queues_from perform 0 (frame_of queues.items) (S.seen stage.old).world
        ≡ Ok (spawned.items, (S.seen stage.new).world)) }
    ensures world_refused { IfErr result (λ r. r ≢ refusal_of NoMemory
        → queues_from perform 0 (frame_of queues.items) (S.seen stage.old).world ≡ Err r) }
    ensures opening { S.opening stage.new ≡ S.opening stage.old }
    ensures wide { IsWider (S.room stage.old) (S.room stage.new) }
{
    let mut spawned = Vec::new(alloc);
    let mut at: u32 = 0;
    for queue in queues {
        match queue.apply_owned_at(at, stage) {
            Ok(made) => match and_made(spawned, made) {
                Ok(both) => spawned = both,
                Err(AllocError) => return Err(Refusal::from(Fault::NoMemory)),
            },
            Err(refusal) => return Err(refusal),
        }
        at += 1;
    }
    Ok(spawned)
}

/// Applies a frame of one command as `apply_owned` does, without a queue for it: what the command gives isn't copied.
///
/// Refused: what `apply_owned` refuses, with the queue 0 and the command 0; `NoMemory`. What is seen of the stage is then
/// as before. The world to which it can be taken back, if it keeps a way back, stays, and no room is lost.
#[inline(always)]
pub fn apply_lone<S: Stage>(
    alloc: Global,
    command: Command,
    stage: &mut S,
) -> Result<Vec<Entity>, Refusal>
    ensures whole { IfOk result (λ spawned. queues_from (act S.note) 0 (frame_of (lone_frame command)) (S.seen stage.old)
        ≡ Ok (spawned.items, S.seen stage.new)) }
    ensures refused { IfErr result (λ r. r ≢ refusal_of NoMemory → queues_from (act S.note) 0 (frame_of (lone_frame command)) (S.seen stage.old) ≡ Err r) }
    ensures same { OnErr result (S.seen stage.new ≡ S.seen stage.old) }
    ensures world { IfOk result (λ spawned. queues_from perform 0 (frame_of (lone_frame command)) (S.seen stage.old).world
        ≡ Ok (spawned.items, (S.seen stage.new).world)) }
    ensures world_refused { IfErr result (λ r. r ≢ refusal_of NoMemory
        → queues_from perform 0 (frame_of (lone_frame command)) (S.seen stage.old).world ≡ Err r) }
    ensures opening { S.opening stage.new ≡ S.opening stage.old }
    ensures wide { IsWider (S.room stage.old) (S.room stage.new) }
{
    let mut spawned = Vec::new(alloc);
    if make_room_for(&command, &mut spawned).is_err() {
        return Err(Refusal::from(Fault::NoMemory));
    }
    match do_owned(command, spawned.as_slice(), stage) {
        Ok(made) => {
            note_spawned(&mut spawned, made);
            Ok(spawned)
        }
        Err(refusal) => Err(placed(refusal, 0, 0)),
    }
}
