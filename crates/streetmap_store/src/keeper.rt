//! The keeper.
ghost use Rattle.std.specs.Prelude.{◌≡◌, ◌⊎◌, ◌↔◌, Err, Some, false, IsTrue, IfOk, IfErr, IfSome};
ghost use Rattle.std.specs.Prelude.{◌≢◌, IsErrAnd, MatchResult, option_and_then};
ghost use Rattle.sqlite.specs.Held.{state};
ghost use Rattle.sqlite.specs.State.{HasCleanDisk, Survives};
ghost use Rattle.streetmap_ledger.specs.State.{State, opening_state};
ghost use Rattle.streetmap_ledger.specs.Keep.{LeavesOnly, LeavesEither};
ghost use Rattle.streetmap_rows.specs.Failures.{IsOfStore};
ghost use Rattle.streetmap_tables.specs.BatchEffects.{IsByStoreError};
ghost use Rattle.streetmap_rows.specs.KeptStates.{Rests, MayLeave};
ghost use Rattle.streetmap_tables.specs.Adoption.{IsAsItWas, LeavesTheSame, Opens};
ghost use Rattle.streetmap_tables.specs.Creation.{is_taken, IsReady, KeepsOtherTables, Makes};
ghost use Rattle.streetmap_tables.specs.Creation.{MayOpen};
ghost use Rattle.streetmap_tables.specs.CreationRefusals.{IsReturned, IsReasoned};
ghost use Rattle.streetmap_tables.specs.Reasons.{OpensFor};
ghost use Rattle.streetmap_tables.specs.QueryResults.{ShowsKeys};
ghost use Rattle.streetmap_tables.specs.Part.{HasCarried};
ghost use Rattle.streetmap_tables.specs.Old.{RestsOld};
ghost use Rattle.streetmap_tables.specs.Migration.{UntouchedUnlessFormat1, MayCarry, Carries};
ghost use Rattle.streetmap_tables.specs.Migration.{OpensBy, KeepsNoMore};
ghost use Rattle.streetmap_store.specs.Reopenings.{IsJustOpened, OpensAs, OpensAsEither};
ghost use Rattle.streetmap_store.specs.CallResults.{KeepsState, EndsRead, Answers, is_named};
ghost use Rattle.streetmap_store.specs.CallResults.{error_in};
ghost use Rattle.streetmap_store.specs.CallResults.{count_after, shut_by, fault_by};
ghost use Rattle.streetmap_store.specs.TableModel.{LeavesStates};

use crate::keys::is_key_used;
use json::Scratch;
use sqlite::{Alter, Connection, Error};
use std::alloc::Global;
use streetmap_feature_text::PackedFeature;
use streetmap_ledger::{
    Batch, Durable, Fault, FeatureOutline, Keeper, KeepsBatches, KeptBatch, Outlined, Page, Reply,
    Summary,
};
use streetmap_query::Query;
use streetmap_reading::{
    batch_of, batches_of, feature_of, feature_outlined_of, outlines_of, page_of, run_of,
    summaries_of, summary_of,
};
use streetmap_rows::{ReadFault, Shut, Stop, settle};
use streetmap_tables::{CreateFault, OpenFault, apply_batch, make_tables, open_tables};
use streetmap_tags::Tagged;

/// A keeper over the tables of a connection, between whose calls no transaction is open.
#[derive(Drop)]
pub struct TableKeeper<S: Alter> {
    alloc: Global,
    conn: Connection<S>,
    /// Memory for reading the texts of features, one after the other.
    scratch: Scratch,
    /// How many batches were accepted.
    count: u64,
    shut: Option<Shut>,
    pub ghost idle: { conn.in_transaction ≡ false },
    pub ghost named: { HasCleanDisk (state S.Store conn) → IsTrue (is_named shut) },
}

/// How many batches were accepted, after a reply.
fn count_of(reply: Reply, count: u64) -> u64
    ensures { result ≡ count_after reply count }
{
    match reply {
        Reply::Accepted(_, serial) => serial,
        Reply::Repeated(_, _) | Reply::Refused(_, _) => count,
    }
}

/// What is returned by a call that gave up.
fn fault_of(stop: Stop) -> Fault
    ensures { result ≡ fault_by stop }
{
    match stop {
        Stop::Memory => Fault::Memory,
        Stop::Closed(Shut::Device(_)) => Fault::Device,
        Stop::Closed(Shut::Damaged) => Fault::Damaged,
    }
}

/// Shuts a keeper whose call gave up, unless memory ran out. Returns what the call returns.
#[tactic(auto, using(crate::proofs::TableCalls::named_after))]
fn shut_for(shut: &mut Option<Shut>, stop: Stop) -> Fault
    ensures value { result ≡ fault_by stop }
    ensures after { shut.new ≡ shut_by stop shut.old }
    ensures named { IsByStoreError stop → IsTrue (is_named shut.old)
        → IsTrue (is_named shut.new) }
{
    if let Stop::Closed(cause) = stop {
        *shut = Some(cause);
    }
    fault_of(stop)
}

/// Ends a read that gave up.
fn give_up<S: Alter>(conn: &mut Connection<S>, fault: ReadFault) -> Stop
    requires { conn.old.in_transaction ≡ false }
    ensures idle { conn.new.in_transaction ≡ false }
    ensures survives { Survives (state S.Store conn.old) (state S.Store conn.new) (λ _. ⊥) }
    ensures ends { HasCleanDisk (state S.Store conn.new)
        → EndsRead fault (state S.Store conn.old) (state S.Store conn.new) result }
    ensures reported { HasCleanDisk (state S.Store conn.new) → IsByStoreError result }
{
    match fault {
        ReadFault::Memory => Stop::Memory,
        ReadFault::Store(error) => settle(conn, error),
        ReadFault::Unread => Stop::Closed(Shut::Damaged),
    }
}

/// The answer to a read of the connection that found this. If it gave up, the connection is
/// settled, and the keeper is shut unless memory ran out.
fn answer<S: Alter, T>(
    conn: &mut Connection<S>,
    shut: &mut Option<Shut>,
    found: Result<T, ReadFault>,
) -> Result<T, Fault>
    requires { conn.old.in_transaction ≡ false }
    ensures idle { conn.new.in_transaction ≡ false }
    ensures answers { Answers found shut.old (state S.Store conn.old)
        shut.new (state S.Store conn.new) result }
    ensures named { HasCleanDisk (state S.Store conn.new) → IsTrue (is_named shut.old)
        → IsTrue (is_named shut.new) }
{
    match found {
        Ok(found) => Ok(found),
        Err(fault) => {
            let stop = give_up(conn, fault);
            Err(shut_for(shut, stop))
        }
    }
}

impl<S: Alter> TableKeeper<S> {
    /// Makes the four tables in a connection, with the opening state, and keeps it there.
    ///
    /// The connection must have no step limit and room for the tables (`make_tables`). A crash
    /// then leaves the opening state; after a refusal the connection, given back, holds what it
    /// held, and a crash may leave the same as before while it is open.
    ///
    /// # Errors
    ///
    /// `Taken` exactly if a table, an index or a view has one of the four names, `Device` if the
    /// store fails or the schema has no place for the tables, with the error that `make_tables`
    /// reports, and `Memory`.
    pub fn make(
        alloc: Global,
        mut conn: Connection<S>,
    ) -> Result<TableKeeper<S>, (CreateFault, Connection<S>)>
        requires { conn.in_transaction ≡ false }
        ensures idle { IfErr result (λ refused. refused.1.in_transaction ≡ false) }
        ensures of_tables { IfErr result (λ refused. refused.0 ≢ CreateFault.NotOurs) }
        ensures taken { IsErrAnd result (λ refused. refused.0 ≡ CreateFault.Taken) ↔ IsTrue
            (is_taken (state S.Store conn).now.schema) }
        ensures untouched { IfErr result (λ refused. refused.0 ≡ CreateFault.Taken
            → refused.1 ≡ conn) }
        ensures clean { MatchResult result (λ keeper. HasCleanDisk (state S.Store keeper.conn)
            → HasCleanDisk (state S.Store conn)) (λ refused. HasCleanDisk (state S.Store refused.1)
            → HasCleanDisk (state S.Store conn)) }
        ensures reason { IfErr result (λ refused. HasCleanDisk (state S.Store refused.1) →
            IsReasoned (state S.Store conn) (state S.Store refused.1) refused.0) }
        ensures made { IfOk result (λ keeper. HasCleanDisk (state S.Store keeper.conn)
            → IsReady (state S.Store conn)
            → KeepsState keeper.shut (state S.Store keeper.conn) keeper.count opening_state) }
        ensures refused { IfErr result (λ refused. HasCleanDisk (state S.Store refused.1)
            → IsReady (state S.Store conn)
            → Makes (state S.Store conn) (state S.Store refused.1) (Err refused.0)) }
        ensures reported { IfErr result (λ refused. HasCleanDisk (state S.Store refused.1)
            → IsReady (state S.Store conn) → IsReturned (state S.Store conn).now.schema refused.0) }
        ensures same { IfErr result (λ refused. HasCleanDisk (state S.Store refused.1)
            → IsAsItWas (state S.Store conn) (state S.Store refused.1)) }
        ensures leaves { IfErr result (λ refused. HasCleanDisk (state S.Store refused.1) →
            IsTrue (state S.Store conn).is_open → IsTrue (state S.Store refused.1).is_open →
            LeavesTheSame (state S.Store conn) (state S.Store refused.1)) }
        ensures elsewhere { IfOk result (λ keeper. HasCleanDisk (state S.Store keeper.conn)
            → IsReady (state S.Store conn)
            → KeepsOtherTables (state S.Store conn).now (state S.Store keeper.conn).now) }
        ensures crash { IfErr result (λ refused. HasCleanDisk (state S.Store refused.1)
            → IsReady (state S.Store conn)
            → MayOpen (state S.Store conn) (state S.Store refused.1)) }
    {
        // Between two transactions it holds what was committed.
        let _idle = conn.is_autocommit();
        match make_tables(&mut conn) {
            Ok(()) => Ok(TableKeeper {
                alloc,
                conn,
                scratch: Scratch::new(alloc),
                count: 0,
                shut: None,
            }),
            Err(fault) => Err((fault, conn)),
        }
    }

    /// Opens the tables that a connection has, and keeps their state. Those of format 1 are
    /// migrated to format 2 first (`open_tables`); if the format is not 1 it writes nothing.
    ///
    /// Whatever the tables are, they are kept only if their format is 2, with the number of batches
    /// that a query returns, or if a row was put into the new features for each row of the old
    /// ones, with its text.
    ///
    /// The connection must have no step limit. After a refusal an open connection holds what it
    /// held, and a crash may leave the same as before; after one that blames the tables a crash may
    /// leave no more than before in any case.
    ///
    /// # Errors
    ///
    /// `NotOurs` if they have no format row of this product, `NewFormat` for a format above 2,
    /// `Damaged` if the format is 1 and this product does not write one of the rows, or it is 2 and
    /// the query of the batches is refused, `Device` if the store fails, or if tables of format 1
    /// cannot be migrated, with the error that `open_tables` reports, and `Memory`.
    pub fn adopt(
        alloc: Global,
        mut conn: Connection<S>,
    ) -> Result<TableKeeper<S>, (OpenFault, Connection<S>)>
        requires { conn.in_transaction ≡ false }
        ensures idle { IfErr result (λ refused. refused.1.in_transaction ≡ false) }
        ensures clean { MatchResult result (λ keeper. HasCleanDisk (state S.Store keeper.conn)
            → HasCleanDisk (state S.Store conn)) (λ refused. HasCleanDisk (state S.Store refused.1)
            → HasCleanDisk (state S.Store conn)) }
        ensures reason { IfErr result (λ refused. HasCleanDisk (state S.Store refused.1) →
            OpensFor (state S.Store conn) (state S.Store refused.1) refused.0) }
        ensures fewer { IfErr result (λ refused. HasCleanDisk (state S.Store refused.1) →
            KeepsNoMore refused.0 (state S.Store conn) (state S.Store refused.1)) }
        ensures unwritten { MatchResult result (λ keeper. HasCleanDisk (state S.Store keeper.conn)
            → UntouchedUnlessFormat1 (state S.Store conn) (state S.Store keeper.conn)) (λ refused.
            HasCleanDisk (state S.Store refused.1)
            → UntouchedUnlessFormat1 (state S.Store conn) (state S.Store refused.1)) }
        ensures same { IfErr result (λ refused. HasCleanDisk (state S.Store refused.1)
            → IsAsItWas (state S.Store conn) (state S.Store refused.1)) }
        ensures leaves { IfErr result (λ refused. HasCleanDisk (state S.Store refused.1) →
            IsTrue (state S.Store conn).is_open → IsTrue (state S.Store refused.1).is_open →
            LeavesTheSame (state S.Store conn) (state S.Store refused.1)) }
        ensures reports { MatchResult result (λ keeper. HasCleanDisk (state S.Store keeper.conn)
            → OpensBy (state S.Store conn) (Ok keeper.count)) (λ refused.
            HasCleanDisk (state S.Store refused.1) → OpensBy (state S.Store conn) (Err refused.0)) }
        ensures each { IfOk result (λ keeper. HasCleanDisk (state S.Store keeper.conn) →
            ShowsKeys (state S.Store conn) keeper.count ⊎ HasCarried S.Store conn keeper.conn) }
        ensures adopted { IfOk result (λ keeper. HasCleanDisk (state S.Store keeper.conn)
            → (s : State) → Rests (state S.Store conn) s
            → KeepsState keeper.shut (state S.Store keeper.conn) keeper.count s) }
        ensures refused { IfErr result (λ refused. HasCleanDisk (state S.Store refused.1)
            → (s : State) → Rests (state S.Store conn) s
            → Opens s (state S.Store conn) (state S.Store refused.1) (Err refused.0)) }
        ensures carried { IfOk result (λ keeper. HasCleanDisk (state S.Store keeper.conn)
            → (s : State) → RestsOld (state S.Store conn) s
            → KeepsState keeper.shut (state S.Store keeper.conn) keeper.count s) }
        ensures refused_old { IfErr result (λ refused. HasCleanDisk (state S.Store refused.1)
            → (s : State) → RestsOld (state S.Store conn) s
            → Carries s (state S.Store conn) (state S.Store refused.1) (Err refused.0)) }
        ensures elsewhere { IfOk result (λ keeper. HasCleanDisk (state S.Store keeper.conn)
            → (s : State) → RestsOld (state S.Store conn) s
            → KeepsOtherTables (state S.Store conn).now (state S.Store keeper.conn).now) }
        ensures crash { MatchResult result (λ keeper. HasCleanDisk (state S.Store keeper.conn)
            → (s : State) → RestsOld (state S.Store conn) s
            → MayCarry s (state S.Store conn) (state S.Store keeper.conn)) (λ refused.
            HasCleanDisk (state S.Store refused.1) → (s : State) → RestsOld (state S.Store conn) s
            → MayCarry s (state S.Store conn) (state S.Store refused.1)) }
    {
        // Between two transactions it holds what was committed.
        let _idle = conn.is_autocommit();
        match open_tables(alloc, &mut conn) {
            Ok(count) => Ok(TableKeeper {
                alloc,
                conn,
                scratch: Scratch::new(alloc),
                count,
                shut: None,
            }),
            Err(fault) => Err((fault, conn)),
        }
    }

    /// Gives the connection back, as it is.
    pub fn release(self) -> Connection<S>
        ensures { result ≡ self.conn }
    {
        let TableKeeper {
            alloc: _,
            conn,
            scratch: _,
            count: _,
            shut: _,
        } = self;
        conn
    }

    /// The error of the store that shut it; none if it is not shut, or was shut at a row that no
    /// keeper writes.
    pub fn error(&self) -> Option<Error>
        ensures value { result ≡ option_and_then error_in self.now.shut }
        ensures named { HasCleanDisk (state S.Store self.now.conn) → IfSome result IsOfStore }
    {
        match self.shut {
            Some(Shut::Device(error)) => Some(error),
            _ => None,
        }
    }
}

/// What a crash leaves of a keeper, opened again. Of a keeper that represents a state it is that
/// state; and if each database that a crash may leave is a state's, as after each run of calls
/// (`preserves` of the keeper's model), one of these states. If the clauses on crashes name one
/// state, or one of two, the tables are those of that state, or of one of the two. With
/// `TableKeeper::adopt` it is kept again.
pub fn what_a_crash_leaves_opens<S: Alter, T: Alter>(
    keeper: &TableKeeper<S>,
    opened: &Connection<T>,
)
    ensures represents { (s : State) →
        KeepsState keeper.now.shut (state S.Store keeper.now.conn) keeper.now.count s →
        (state S.Store keeper.now.conn).may_leave (state T.Store opened.now).now.trees →
        IsJustOpened (state T.Store opened.now) → Rests (state T.Store opened.now) s }
    ensures states { LeavesStates (state S.Store keeper.now.conn) →
        (state S.Store keeper.now.conn).may_leave (state T.Store opened.now).now.trees →
        IsJustOpened (state T.Store opened.now) →
        (t : State) × Rests (state T.Store opened.now) t ×
        MayLeave (state S.Store keeper.now.conn) (Some t) }
    ensures one { (s : State) → LeavesOnly (MayLeave (state S.Store keeper.now.conn)) (Some s) →
        (state S.Store keeper.now.conn).may_leave (state T.Store opened.now).now.trees →
        IsJustOpened (state T.Store opened.now) → OpensAs s (state T.Store opened.now) }
    ensures either { (s t : State) →
        LeavesEither (MayLeave (state S.Store keeper.now.conn)) (Some s) (Some t) →
        (state S.Store keeper.now.conn).may_leave (state T.Store opened.now).now.trees →
        IsJustOpened (state T.Store opened.now) → OpensAsEither s t (state T.Store opened.now) }
{}

impl<S: Alter> Keeper for TableKeeper<S> {
    ghost use Rattle.sqlite.specs.Held.{state};
    ghost use Rattle.streetmap_store.specs.TableModel.{table_model};

    ghost model = { table_model (record {
      shut = λ k. k.shut;
      count = λ k. k.count;
      seen = λ k. state S.Store k.conn;
    }) };

    fn is_open(&self) -> bool {
        self.shut.is_none()
    }

    fn apply(&mut self, batch: &Batch) -> Result<Reply, Fault> {
        if !self.is_open() {
            return Err(Fault::Reopen);
        }
        match apply_batch(self.alloc, &mut self.conn, self.count, batch) {
            Ok(reply) => {
                self.count = count_of(reply, self.count);
                Ok(reply)
            }
            Err(stop) => Err(shut_for(&mut self.shut, stop)),
        }
    }

    fn page(&mut self, collection: &str, query: &Query) -> Result<Option<Page>, Fault> {
        if !self.is_open() {
            return Err(Fault::Reopen);
        }
        let page = page_of(self.alloc, &mut self.conn, collection, query);
        answer(&mut self.conn, &mut self.shut, page)
    }

    fn feature(&mut self, collection: &str, id: &str) -> Result<Option<PackedFeature>, Fault> {
        if !self.is_open() {
            return Err(Fault::Reopen);
        }
        let feature = feature_of(
            self.alloc,
            &mut self.scratch,
            &mut self.conn,
            collection,
            id,
        );
        answer(&mut self.conn, &mut self.shut, feature)
    }

    fn collection(&mut self, id: &str) -> Result<Option<Summary>, Fault> {
        if !self.is_open() {
            return Err(Fault::Reopen);
        }
        let summary = summary_of(self.alloc, &mut self.conn, id);
        answer(&mut self.conn, &mut self.shut, summary)
    }

    fn collections(&mut self) -> Result<Vec<Summary>, Fault> {
        if !self.is_open() {
            return Err(Fault::Reopen);
        }
        let summaries = summaries_of(self.alloc, &mut self.conn);
        answer(&mut self.conn, &mut self.shut, summaries)
    }
}

impl<S: Alter> Outlined for TableKeeper<S> {
    fn feature_outlined(
        &mut self,
        collection: &str,
        outline: &FeatureOutline,
    ) -> Result<Option<PackedFeature>, Fault> {
        if !self.is_open() {
            return Err(Fault::Reopen);
        }
        let feature = feature_outlined_of(
            self.alloc,
            &mut self.scratch,
            &mut self.conn,
            collection,
            outline,
        );
        answer(&mut self.conn, &mut self.shut, feature)
    }

    fn features(
        &mut self,
        collection: &str,
        first: &str,
        last: &str,
    ) -> Result<Option<Vec<PackedFeature>>, Fault> {
        if !self.is_open() {
            return Err(Fault::Reopen);
        }
        let features = run_of(self.alloc, &mut self.conn, collection, first, last);
        answer(&mut self.conn, &mut self.shut, features)
    }

    fn outlines(&mut self, collection: &str) -> Result<Option<Vec<FeatureOutline>>, Fault> {
        if !self.is_open() {
            return Err(Fault::Reopen);
        }
        let outlines = outlines_of(self.alloc, &mut self.conn, collection);
        answer(&mut self.conn, &mut self.shut, outlines)
    }
}

impl<S: Alter> Tagged for TableKeeper<S> {
    fn tag(&mut self) -> Result<u64, Fault> {
        self.batch_count()
    }

    fn has_key(&mut self, key: &str) -> Result<bool, Fault> {
        if !self.is_open() {
            return Err(Fault::Reopen);
        }
        let used = is_key_used(&mut self.conn, key);
        answer(&mut self.conn, &mut self.shut, used)
    }

    fn accepted(&mut self, serial: u64) -> Result<Option<KeptBatch>, Fault> {
        if !self.is_open() {
            return Err(Fault::Reopen);
        }
        let batch = batch_of(self.alloc, &mut self.conn, serial);
        answer(&mut self.conn, &mut self.shut, batch)
    }
}

impl<S: Alter> KeepsBatches for TableKeeper<S> {
    fn batch_count(&mut self) -> Result<u64, Fault> {
        if !self.is_open() {
            return Err(Fault::Reopen);
        }
        Ok(self.count)
    }

    fn batch(&mut self, serial: u64) -> Result<Option<KeptBatch>, Fault> {
        if !self.is_open() {
            return Err(Fault::Reopen);
        }
        let batch = batch_of(self.alloc, &mut self.conn, serial);
        answer(&mut self.conn, &mut self.shut, batch)
    }

    fn batches(&mut self, alloc: Global, after: u64, room: usize) -> Result<Vec<KeptBatch>, Fault> {
        if !self.is_open() {
            return Err(Fault::Reopen);
        }
        let batches = batches_of(alloc, &mut self.conn, after, room);
        answer(&mut self.conn, &mut self.shut, batches)
    }
}

impl<S: Alter> Durable for TableKeeper<S> {
    ghost use Rattle.sqlite.specs.Held.{state};
    ghost use Rattle.sqlite.specs.Effect.{Database};
    ghost use Rattle.streetmap_rows.specs.KeptStates.{Keeps};
    ghost use Rattle.streetmap_store.specs.Reopenings.{LeavesDatabase};
    ghost use Rattle.streetmap_store.specs.IndexesListed.{keeps_too};

    // A database that SQLite's model of a crash admits. It holds the state that its rows are of.
    ghost image = { Database };

    ghost leaves = { λ k db. LeavesDatabase (state S.Store k.conn) db };

    ghost holds = { λ db s. Keeps s db };

    ghost images_hold_states = { λ first last s db is preserved clean left.
        let it = preserved.states clean s is db.trees left.0 in (
          it.0,
          keeps_too it.0 it.1.0 db.schema db.trees left.1 it.1.1,
          (db.trees, left.0, it.1),
        ) };
}
