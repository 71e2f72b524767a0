//! The algebra of registered queries.
ghost use Rattle.line_parts.specs.NameList.{IsName, IsNameList};
ghost use Rattle.query_book.specs.Answers.{IsNamed};
ghost use Rattle.query_book.specs.Book.{queries_of};
ghost use Rattle.query_book.specs.Combining.{HasPair, HasProjection, IsAbsent, IsAccepted, IsPairRefused, IsProjectRefused};
ghost use Rattle.query_book.specs.Compiling.{IsCompiled};
ghost use Rattle.query_book.specs.Named.{AreDistinctNames, put, value_of};
ghost use Rattle.query_book.specs.Serving.{Serves, counted_of, covered_of};
ghost use Rattle.slp_model.specs.declared.Node.{Node};
ghost use Rattle.span_types.specs.Query.{Join, Union, query_of};
ghost use Rattle.std.specs.Prelude.{◌≡◌, List, IfErr, IfOk, OnErr, OnOk, Some};

use crate::book::QueryBook;
use crate::combined::{joined, projected, united};
use crate::compiled::Compiled;
use crate::keeping::name_of;
use crate::refusal::CombineRefusal;
use span_types::Name;
use std::alloc::Global;

impl QueryBook {
    /// Registers the union of two queries, as a copy. Its answers are those of the left and of the right query; a
    /// variable that a query lacks has no span in its answers. An existing name keeps its index and gets the new query,
    /// and a new name goes last. The query has no tables yet. After an error the registry is unchanged.
    ///
    /// # Errors
    ///
    /// The first of these:
    ///
    /// - `NoSuchQuery` exactly if no query has the left name, or else if none has the right name
    /// - `QueryTooLarge` exactly if the tree would have more than 128 leaves and operations
    /// - `TooManyVariables` exactly if it would have more than eight variables
    /// - `TooManyStates` exactly if the automaton would have more states than the registry allows
    /// - `NoMemory` if allocation fails
    pub fn union(
        &mut self,
        alloc: Global,
        name: Name,
        left: &[u8],
        right: &[u8],
    ) -> Result<(), CombineRefusal>
        requires left { IsName left.now }
        requires right { IsName right.now }
        ensures ok { OnOk result (HasPair Union (queries_of self.old) left.now right.now (λ q. IsAccepted self.old.states q × (queries_of self.new ≡ put (queries_of self.old) name q))) }
        ensures covered { OnOk result (covered_of self.new ≡ put (covered_of self.old) name 0) }
        ensures counted { OnOk result (counted_of self.new ≡ put (counted_of self.old) name 0) }
        ensures serves { (ns : List Node) → Serves ns self.old → Serves ns self.new }
        ensures distinct { OnOk result (AreDistinctNames (queries_of self.new)) }
        ensures refused { IfErr result (IsPairRefused self.old.states Union (queries_of self.old) left.now right.now) }
        ensures err { OnErr result (self.new ≡ self.old) }
        ensures states { self.new.states ≡ self.old.states }
    {
        let query = self.union_of(alloc, left, right)?;
        self.register(alloc, name, query)?;
        Ok(())
    }

    /// Registers the natural join of two queries, as a copy. Its answers combine an answer of each query, if the two
    /// agree on every common variable. A variable without a span agrees only with one without a span. An existing name
    /// keeps its index and gets the new query, and a new name goes last. The query has no tables yet. After an error
    /// the registry is unchanged.
    ///
    /// # Errors
    ///
    /// The first of these:
    ///
    /// - `NoSuchQuery` exactly if no query has the left name, or else if none has the right name
    /// - `QueryTooLarge` exactly if the tree would have more than 128 leaves and operations
    /// - `TooManyVariables` exactly if it would have more than eight variables
    /// - `TooManyStates` exactly if the automaton would have more states than the registry allows
    /// - `NoMemory` if allocation fails
    pub fn join(
        &mut self,
        alloc: Global,
        name: Name,
        left: &[u8],
        right: &[u8],
    ) -> Result<(), CombineRefusal>
        requires left { IsName left.now }
        requires right { IsName right.now }
        ensures ok { OnOk result (HasPair Join (queries_of self.old) left.now right.now (λ q. IsAccepted self.old.states q × (queries_of self.new ≡ put (queries_of self.old) name q))) }
        ensures covered { OnOk result (covered_of self.new ≡ put (covered_of self.old) name 0) }
        ensures counted { OnOk result (counted_of self.new ≡ put (counted_of self.old) name 0) }
        ensures serves { (ns : List Node) → Serves ns self.old → Serves ns self.new }
        ensures distinct { OnOk result (AreDistinctNames (queries_of self.new)) }
        ensures refused { IfErr result (IsPairRefused self.old.states Join (queries_of self.old) left.now right.now) }
        ensures err { OnErr result (self.new ≡ self.old) }
        ensures states { self.new.states ≡ self.old.states }
    {
        let query = self.join_of(alloc, left, right)?;
        self.register(alloc, name, query)?;
        Ok(())
    }

    /// Registers the projection of a query, as a copy. Its answers are those of the source, restricted to the variables
    /// that `keep` lists, which are its variables in this order. `keep` is `()`, or one or more names separated by
    /// commas. An existing name keeps its index and gets the new query, and a new name goes last. The query has no
    /// tables yet. After an error the registry is unchanged.
    ///
    /// # Errors
    ///
    /// The first of these:
    ///
    /// - `NoSuchQuery` exactly if no query has the source's name
    /// - `QueryTooLarge` exactly if the tree would have more than 128 leaves and operations
    /// - `OtherVariables` exactly if a name in `keep` isn't a variable of the source or occurs twice
    /// - `TooManyStates` exactly if the automaton would have more states than the registry allows
    /// - `NoMemory` if allocation fails
    pub fn project(
        &mut self,
        alloc: Global,
        name: Name,
        source: &[u8],
        keep: &[u8],
    ) -> Result<(), CombineRefusal>
        requires source { IsName source.now }
        requires keep { IsNameList keep.now }
        ensures ok { OnOk result (IsNamed (queries_of self.old) source.now (λ q. HasProjection q keep.now (λ p. IsAccepted self.old.states p × (queries_of self.new ≡ put (queries_of self.old) name p)))) }
        ensures covered { OnOk result (covered_of self.new ≡ put (covered_of self.old) name 0) }
        ensures counted { OnOk result (counted_of self.new ≡ put (counted_of self.old) name 0) }
        ensures serves { (ns : List Node) → Serves ns self.old → Serves ns self.new }
        ensures distinct { OnOk result (AreDistinctNames (queries_of self.new)) }
        ensures refused { IfErr result (IsProjectRefused self.old.states (queries_of self.old) source.now keep.now) }
        ensures err { OnErr result (self.new ≡ self.old) }
        ensures states { self.new.states ≡ self.old.states }
    {
        let query = self.projection_of(alloc, source, keep)?;
        self.register(alloc, name, query)?;
        Ok(())
    }

    /// The union of the queries with these names. `register` registers the result.
    ///
    /// # Errors
    ///
    /// As for `union`.
    pub fn union_of(
        &self,
        alloc: Global,
        left: &[u8],
        right: &[u8],
    ) -> Result<Compiled, CombineRefusal>
        requires left { IsName left.now }
        requires right { IsName right.now }
        ensures tree { IfOk result (λ c. HasPair Union (queries_of self.now) left.now right.now (λ q. IsAccepted self.now.states q × (query_of c.tree ≡ q))) }
        ensures compiled { IfOk result IsCompiled }
        ensures refused { IfErr result (IsPairRefused self.now.states Union (queries_of self.now) left.now right.now) }
    {
        let left = self.operand(alloc, left)?;
        let right = self.operand(alloc, right)?;
        united(alloc, left, right, self.states())
    }

    /// The join of the queries with these names. `register` registers the result.
    ///
    /// # Errors
    ///
    /// As for `join`.
    pub fn join_of(
        &self,
        alloc: Global,
        left: &[u8],
        right: &[u8],
    ) -> Result<Compiled, CombineRefusal>
        requires left { IsName left.now }
        requires right { IsName right.now }
        ensures tree { IfOk result (λ c. HasPair Join (queries_of self.now) left.now right.now (λ q. IsAccepted self.now.states q × (query_of c.tree ≡ q))) }
        ensures compiled { IfOk result IsCompiled }
        ensures refused { IfErr result (IsPairRefused self.now.states Join (queries_of self.now) left.now right.now) }
    {
        let left = self.operand(alloc, left)?;
        let right = self.operand(alloc, right)?;
        joined(alloc, left, right, self.states())
    }

    /// The projection of the query with this name. `register` registers the result.
    ///
    /// # Errors
    ///
    /// As for `project`.
    pub fn projection_of(
        &self,
        alloc: Global,
        source: &[u8],
        keep: &[u8],
    ) -> Result<Compiled, CombineRefusal>
        requires source { IsName source.now }
        requires keep { IsNameList keep.now }
        ensures tree { IfOk result (λ c. IsNamed (queries_of self.now) source.now (λ q. HasProjection q keep.now (λ p. IsAccepted self.now.states p × (query_of c.tree ≡ p)))) }
        ensures compiled { IfOk result IsCompiled }
        ensures refused { IfErr result (IsProjectRefused self.now.states (queries_of self.now) source.now keep.now) }
    {
        let source = self.operand(alloc, source)?;
        projected(alloc, source, keep, self.states())
    }

    /// The query with this name.
    fn operand(&self, alloc: Global, name: &[u8]) -> Result<&Compiled, CombineRefusal>
        requires { IsName name.now }
        ensures there { IfOk result (λ c. value_of (queries_of self.now) name.now ≡ Some (query_of c.now.tree)) }
        ensures compiled { IfOk result (λ c. IsCompiled c.now) }
        ensures absent { IfErr result (IsAbsent (queries_of self.now) name.now) }
    {
        match self.tabled(name) {
            Ok(tabled) => Ok(&tabled.query),
            Err(_) => Err(CombineRefusal::NoSuchQuery {
                name: name_of(alloc, name)?,
            }),
        }
    }
}
