//! What a point makes of an environment.
ghost use Rattle.std.specs.Prelude.{◌≡◌, ◌<◌, ◌+◌, ◌^◌, ◌++◌, ◌∷◌, [], IfOk, OnOk, length};
ghost use Rattle.jn_quals.specs.Order.{is_none, null_part, without_null};
ghost use Rattle.jn_env.specs.Order.{qual_at};
ghost use Rattle.jn_points.specs.Lookup.{slots_of, method_at, ref_field};
ghost use Rattle.jn_sigs.specs.Signature.{result_of};
ghost use Rattle.jn_transfer.specs.Transfer.{put, drop_facts, put_to, learn, refine, side, written, facts_but, write_facts, write_assigned, ctor_called, elem_read, read_part, read_qual, transfer, ref_quals, new_qual};
ghost use Rattle.jn_env.specs.Sized.{EnvSized};
ghost use Rattle.jn_env.specs.Code.{AreKeys};
ghost use Rattle.jn_env.specs.Keys.{own_keys};

use crate::creation::{new_qual, ref_quals};
use crate::lookup::{
    class_of, elem_qual, field_qual, is_ctor, is_flat_field, literal_qual, locals, result_qual,
};
use jn_base::{BodyNo, FieldNo, MethodNo, OutOfMemory, RegNo};
use jn_env::keys::is_ref_field;
use jn_env::{Env, Keys};
use jn_points::lookup::{is_monotonic, owner, reg_base};
use jn_points::{Operand, Origin, PointKind, Program};
use jn_quals::Qual;
use jn_sigs::Sig;
use std::alloc::{AllocError, Global};
use std::marker::Model;

/// The number of a target, and the environment there.
pub type Edge = (u32, Env);

/// A body of a program under a signature, with the body's keys. Contracts see all but the keys, which are told by it.
#[derive(Drop)]
pub struct Analysis<'a> {
    program: &'a Program,
    sig: &'a Sig,
    body: BodyNo,
    keys: &'a Keys,
}

impl<'a> Model for Analysis<'a> {
    ghost use Rattle.jn_env.specs.Code.{AreKeys};
    ghost use Rattle.jn_transfer.specs.Subject.{Subject};

    ghost Value = { Subject };

    ghost view = { λ a. record { program = a.program.now; sig = a.sig.now; body = a.body.0 } };

    ghost invariant = { λ a. AreKeys a.program.now a.body.0 a.keys.now };
}

impl<'a> Analysis<'a> {
    /// The analysis of a body, whose keys these are.
    pub fn new(program: &'a Program, sig: &'a Sig, body: BodyNo, keys: &'a Keys) -> Analysis<'a>
        requires { AreKeys program.now body.0 keys.now }
        ensures program { result.program ≡ program.now }
        ensures sig { result.sig ≡ sig.now }
        ensures body { result.body ≡ body.0 }
    {
        Analysis {
            program,
            sig,
            body,
            keys,
        }
    }

    /// The program.
    pub fn program(&self) -> &'a Program
        ensures { result.now ≡ self.now.program }
    {
        self.program
    }

    /// The signature.
    pub fn sig(&self) -> &'a Sig
        ensures { result.now ≡ self.now.sig }
    {
        self.sig
    }

    /// The body's number.
    pub fn body(&self) -> BodyNo
        ensures { result.0 ≡ self.now.body }
    {
        self.body
    }

    /// The body's keys.
    pub fn keys(&self) -> &'a Keys
        ensures { AreKeys self.now.program self.now.body result.now }
    {
        self.keys
    }

    /// Writes a register; its facts go.
    fn put(&self, env: &mut Env, reg: RegNo, qual: Qual)
        requires sized { EnvSized self.now.program self.now.body env.old }
        ensures { env.new ≡ put self.now.program self.now.body env.old reg.0 qual }
    {
        env.set(self.keys(), reg, qual);
    }

    /// Facts on fields that aren't monotonic go.
    fn drop_facts(&self, env: &mut Env)
        requires sized { EnvSized self.now.program self.now.body env.old }
        ensures { env.new ≡ drop_facts self.now.program self.now.body env.old }
    {
        env.keep_facts(self.keys(), self.program);
    }

    /// A test's origin is a fact.
    fn learn(&self, env: &mut Env, origin: Option<Origin>)
        requires sized { EnvSized self.now.program self.now.body env.old }
        ensures { env.new ≡ learn self.now.program self.now.body origin env.old }
    {
        match origin {
            None => {}
            Some(origin) => env.add_fact(self.keys(), origin.reg, origin.field),
        }
    }

    /// The qualifier of a field that is read from a non-null object.
    fn read_part(&self, field: FieldNo, object: Qual) -> Qual
        ensures { result ≡ read_part self.now.program self.now.sig field.0 object }
    {
        if object.is_none() {
            return Qual::none();
        }
        if !object.has_free() {
            return field_qual(self.program, self.sig, field.0).without_free();
        }
        if is_flat_field(self.program, field.0) {
            Qual::null_or_committed()
        } else {
            Qual::all()
        }
    }

    /// The qualifier of a field that is read through a register.
    fn read_qual(&self, env: &Env, object: RegNo, field: FieldNo) -> Qual
        requires sized { EnvSized self.now.program self.now.body env.now }
        ensures { result
            ≡ read_qual self.now.program self.now.sig self.now.body env.now object.0 field.0 }
    {
        let read = if is_ref_field(self.program, field.0) {
            self.read_part(field, env.qual(object).without_null())
        } else {
            Qual::none()
        };
        if env.has_fact(self.keys(), object, field) {
            read.without_null()
        } else {
            read
        }
    }

    /// A field of the object in a register is written.
    fn write(&self, env: &mut Env, object: RegNo, field: FieldNo, value: RegNo)
        requires sized { EnvSized self.now.program self.now.body env.old }
        ensures { env.new
            ≡ written self.now.program self.now.body env.old object.0 field.0 value.0
            (ref_field self.now.program field.0) }
    {
        if is_ref_field(self.program, field.0) {
            self.write_facts(env, object, field, value);
            self.write_assigned(env, object, field);
        }
    }

    /// Facts on a field that is written go, unless it takes no null.
    fn drop_facts_on(&self, env: &mut Env, field: FieldNo)
        requires sized { EnvSized self.now.program self.now.body env.old }
        ensures facts { env.new.facts ≡ facts_but self.now.program self.now.body env.old field.0 }
        ensures quals { env.new.quals ≡ env.old.quals }
        ensures assigned { env.new.assigned ≡ env.old.assigned }
    {
        if !is_monotonic(self.program, field.0) {
            env.drop_facts(self.keys(), field);
        }
    }

    fn write_facts(&self, env: &mut Env, object: RegNo, field: FieldNo, value: RegNo)
        requires sized { EnvSized self.now.program self.now.body env.old }
        ensures facts { env.new.facts
            ≡ write_facts self.now.program self.now.body env.old object.0 field.0 value.0 }
        ensures quals { env.new.quals ≡ env.old.quals }
        ensures assigned { env.new.assigned ≡ env.old.assigned }
    {
        self.drop_facts_on(env, field);
        if object.0 < locals(self.program, self.body) && !env.qual(value).has_null() {
            env.add_fact(self.keys(), object, field);
        }
    }

    fn write_assigned(&self, env: &mut Env, object: RegNo, field: FieldNo)
        requires sized { length env.old.assigned
            ≡ length (own_keys self.now.program self.now.body) }
        ensures assigned { env.new.assigned
            ≡ write_assigned self.now.program self.now.body env.old object.0 field.0 }
        ensures quals { env.new.quals ≡ env.old.quals }
        ensures facts { env.new.facts ≡ env.old.facts }
    {
        if is_ctor(self.program, self.body)
            && object.0 == 0
            && owner(self.program, field.0) == class_of(self.program, self.body)
        {
            env.assign(self.keys(), Some(field));
        }
    }

    /// A constructor of the own class or the parent is called.
    fn call_ctor(&self, env: &mut Env, own: bool)
        requires sized { EnvSized self.now.program self.now.body env.old }
        ensures { env.new ≡ ctor_called self.now.program self.now.body env.old own }
    {
        self.drop_facts(env);
        if own {
            env.assign(self.keys(), None);
        }
    }

    /// The qualifier of an element that is read through a register.
    fn elem_read(&self, env: &Env, array: RegNo) -> Qual
        ensures { result ≡ elem_read self.now.program self.now.body env.now array.0 }
    {
        if env.qual(array).without_null().is_none() {
            return Qual::none();
        }
        elem_qual(reg_base(self.program, self.body.0 as usize, array))
    }

    /// The qualifier of a new object.
    fn created(
        &self,
        alloc: Global,
        env: &Env,
        ctor: MethodNo,
        args: &[Operand],
    ) -> Result<Qual, OutOfMemory>
        ensures { IfOk result (λ q. q
            ≡ new_qual
            (ref_quals env.now (slots_of (method_at self.now.program ctor.0)) args.now)) }
    {
        let quals = match self.program.methods.as_slice().get(ctor.0 as usize) {
            None => Vec::new(alloc),
            Some(method) => ref_quals(alloc, env, method.param_slots.as_slice(), args)?,
        };
        Ok(new_qual(&quals))
    }

    /// The one edge after a write of a register.
    fn putting(
        &self,
        alloc: Global,
        to: u32,
        env: &Env,
        reg: RegNo,
        qual: Qual,
    ) -> Result<Vec<Edge>, OutOfMemory>
        requires sized { EnvSized self.now.program self.now.body env.now }
        ensures { IfOk result
            (λ xs. xs.items ≡ (to, put self.now.program self.now.body env.now reg.0 qual) ∷ []) }
    {
        let mut after = env.copy(alloc)?;
        self.put(&mut after, reg, qual);
        one_edge(alloc, to, after)
    }

    fn after_write(
        &self,
        alloc: Global,
        to: u32,
        env: &Env,
        object: RegNo,
        field: FieldNo,
        value: RegNo,
    ) -> Result<Vec<Edge>, OutOfMemory>
        requires sized { EnvSized self.now.program self.now.body env.now }
        ensures { IfOk result (λ xs. xs.items
            ≡ (
              to,
              written self.now.program self.now.body env.now object.0 field.0 value.0
                  (ref_field self.now.program field.0),
            )
            ∷ []) }
    {
        let mut after = env.copy(alloc)?;
        self.write(&mut after, object, field, value);
        one_edge(alloc, to, after)
    }

    fn after_new(
        &self,
        alloc: Global,
        to: u32,
        env: &Env,
        dst: RegNo,
        ctor: MethodNo,
        args: &[Operand],
    ) -> Result<Vec<Edge>, OutOfMemory>
        requires sized { EnvSized self.now.program self.now.body env.now }
        ensures { IfOk result (λ xs. xs.items
            ≡ (
              to,
              put self.now.program self.now.body
                  (drop_facts self.now.program self.now.body env.now) dst.0
                  (new_qual (ref_quals env.now (slots_of (method_at self.now.program ctor.0))
                  args.now)),
            )
            ∷ []) }
    {
        let qual = self.created(alloc, env, ctor, args)?;
        let mut after = env.copy(alloc)?;
        self.drop_facts(&mut after);
        self.put(&mut after, dst, qual);
        one_edge(alloc, to, after)
    }

    fn after_ctor_call(
        &self,
        alloc: Global,
        to: u32,
        env: &Env,
        own: bool,
    ) -> Result<Vec<Edge>, OutOfMemory>
        requires sized { EnvSized self.now.program self.now.body env.now }
        ensures { IfOk result
            (λ xs. xs.items ≡ (to, ctor_called self.now.program self.now.body env.now own) ∷ []) }
    {
        let mut after = env.copy(alloc)?;
        self.call_ctor(&mut after, own);
        one_edge(alloc, to, after)
    }

    fn after_call(
        &self,
        alloc: Global,
        to: u32,
        env: &Env,
        dst: Option<RegNo>,
        method: MethodNo,
    ) -> Result<Vec<Edge>, OutOfMemory>
        requires sized { EnvSized self.now.program self.now.body env.now }
        ensures { IfOk result (λ xs. xs.items
            ≡ (
              to,
              put_to self.now.program self.now.body
                  (drop_facts self.now.program self.now.body env.now) dst
                  (result_of self.now.sig (method_at self.now.program method.0)),
            )
            ∷ []) }
    {
        let mut after = env.copy(alloc)?;
        self.drop_facts(&mut after);
        match dst {
            None => {}
            Some(dst) => {
                self.put(&mut after, dst, result_qual(self.program, self.sig, method));
            }
        }
        one_edge(alloc, to, after)
    }

    /// A side of a test where the register has this qualifier; none where nothing is left.
    fn push_side(
        &self,
        alloc: Global,
        edges: &mut Vec<Edge>,
        to: u32,
        env: &Env,
        reg: RegNo,
        qual: Qual,
        origin: Option<Origin>,
    ) -> Result<(), OutOfMemory>
        requires sized { EnvSized self.now.program self.now.body env.now }
        ensures { OnOk result (edges.new.items
            ≡ edges.old.items
            ++ side (is_none qual) to
            (learn self.now.program self.now.body origin (refine env.now reg.0 qual))) }
    {
        if qual.is_none() {
            return Ok(());
        }
        let mut after = env.copy(alloc)?;
        after.set_qual(reg, qual);
        self.learn(&mut after, origin);
        push_edge(edges, to, after)?;
        Ok(())
    }

    fn null_test(
        &self,
        alloc: Global,
        env: &Env,
        of: RegNo,
        origin: Option<Origin>,
        null: u32,
        non_null: u32,
    ) -> Result<Vec<Edge>, OutOfMemory>
        requires sized { EnvSized self.now.program self.now.body env.now }
        ensures { IfOk result (λ xs. xs.items
            ≡ side (is_none (null_part (qual_at env.now of.0))) null
            (refine env.now of.0 (null_part (qual_at env.now of.0)))
            ++ side (is_none (without_null (qual_at env.now of.0))) non_null
            (learn self.now.program self.now.body origin
            (refine env.now of.0 (without_null (qual_at env.now of.0))))) }
    {
        let qual = env.qual(of);
        let mut edges = Vec::new(alloc);
        self.push_side(alloc, &mut edges, null, env, of, qual.null_part(), None)?;
        self.push_side(
            alloc,
            &mut edges,
            non_null,
            env,
            of,
            qual.without_null(),
            origin,
        )?;
        Ok(edges)
    }

    fn instance_test(
        &self,
        alloc: Global,
        env: &Env,
        of: RegNo,
        origin: Option<Origin>,
        yes: u32,
        no: u32,
    ) -> Result<Vec<Edge>, OutOfMemory>
        requires sized { EnvSized self.now.program self.now.body env.now }
        ensures { IfOk result (λ xs. xs.items
            ≡ side (is_none (without_null (qual_at env.now of.0))) yes
            (learn self.now.program self.now.body origin
            (refine env.now of.0 (without_null (qual_at env.now of.0))))
            ++ (no, env.now) ∷ []) }
    {
        let qual = env.qual(of).without_null();
        let mut edges = Vec::new(alloc);
        self.push_side(alloc, &mut edges, yes, env, of, qual, origin)?;
        push_edge(&mut edges, no, env.copy(alloc)?)?;
        Ok(edges)
    }
    /// For each edge of a point that stands at this place its target and the environment after it.
    ///
    /// # Errors
    /// No memory was found.
    pub fn edges_after(
        &self,
        alloc: Global,
        kind: &PointKind,
        at: u32,
        env: &Env,
    ) -> Result<Vec<Edge>, OutOfMemory>
        requires sized { EnvSized self.now.program self.now.body env.now }
        requires small { at + 1 < 2 ^ 32 }
        ensures { IfOk result (λ xs.
            xs.items ≡ transfer self.now.program self.now.sig self.now.body kind.now at env.now) }
    {
        let next = at + 1;
        let plain = Qual::none();
        let whole = Qual::committed_only();
        match kind {
            PointKind::Const { dst, value } => {
                self.putting(alloc, next, env, *dst, literal_qual(*value))
            }
            PointKind::Move { dst, from, .. } => {
                self.putting(alloc, next, env, *dst, env.qual(from.reg))
            }
            PointKind::Unary { dst, .. } => self.putting(alloc, next, env, *dst, plain),
            PointKind::Binary { dst, .. } => self.putting(alloc, next, env, *dst, plain),
            PointKind::Concat { dst, .. } => self.putting(alloc, next, env, *dst, whole),
            PointKind::SameRef { dst, .. } => self.putting(alloc, next, env, *dst, plain),
            PointKind::FieldRead { dst, object, field } => {
                let qual = self.read_qual(env, object.reg, *field);
                self.putting(alloc, next, env, *dst, qual)
            }
            PointKind::FieldWrite {
                object,
                field,
                value,
            } => { self.after_write(alloc, next, env, object.reg, *field, value.reg) }
            PointKind::StaticRead { dst, .. } => self.putting(alloc, next, env, *dst, plain),
            PointKind::StaticWrite { .. } => one_edge(alloc, next, env.copy(alloc)?),
            PointKind::ElemRead { dst, array, .. } => {
                self.putting(alloc, next, env, *dst, self.elem_read(env, array.reg))
            }
            PointKind::ElemWrite { .. } => one_edge(alloc, next, env.copy(alloc)?),
            PointKind::ArrayLen { dst, .. } => self.putting(alloc, next, env, *dst, plain),
            PointKind::NewArray { dst, .. } => self.putting(alloc, next, env, *dst, whole),
            PointKind::ArrayOf { dst, .. } => self.putting(alloc, next, env, *dst, whole),
            PointKind::New { dst, ctor, args } => {
                self.after_new(alloc, next, env, *dst, *ctor, args.as_slice())
            }
            PointKind::CtorCall { own, .. } => self.after_ctor_call(alloc, next, env, *own),
            PointKind::Call { dst, method, .. } => {
                self.after_call(alloc, next, env, *dst, *method)
            }
            PointKind::StrOp { dst, .. } => self.putting(alloc, next, env, *dst, plain),
            PointKind::Print { .. } => one_edge(alloc, next, env.copy(alloc)?),
            PointKind::Cast { dst, of, .. } => {
                self.putting(alloc, next, env, *dst, env.qual(of.reg))
            }
            PointKind::TestInst {
                of,
                origin,
                yes,
                no,
                ..
            } => { self.instance_test(alloc, env, of.reg, *origin, yes.0, no.0) }
            PointKind::TestNull {
                of,
                origin,
                null,
                non_null,
            } => { self.null_test(alloc, env, of.reg, *origin, null.0, non_null.0) }
            PointKind::Branch { yes, no, .. } => two_edges(alloc, yes.0, no.0, env),
            PointKind::Goto { to } => one_edge(alloc, to.0, env.copy(alloc)?),
            PointKind::Return { .. } => Ok(Vec::new(alloc)),
        }
    }
}

fn push_edge(edges: &mut Vec<Edge>, to: u32, env: Env) -> Result<(), AllocError>
    ensures { OnOk result (edges.new.items ≡ edges.old.items ++ (to, env) ∷ []) }
{
    edges.push((to, env))?;
    Ok(())
}

fn one_edge(alloc: Global, to: u32, env: Env) -> Result<Vec<Edge>, OutOfMemory>
    ensures { IfOk result (λ xs. xs.items ≡ (to, env) ∷ []) }
{
    let mut edges = Vec::new(alloc);
    push_edge(&mut edges, to, env)?;
    Ok(edges)
}

fn two_edges(alloc: Global, yes: u32, no: u32, env: &Env) -> Result<Vec<Edge>, OutOfMemory>
    ensures { IfOk result (λ xs. xs.items ≡ (yes, env.now) ∷ (no, env.now) ∷ []) }
{
    let mut edges = one_edge(alloc, yes, env.copy(alloc)?)?;
    push_edge(&mut edges, no, env.copy(alloc)?)?;
    Ok(edges)
}
