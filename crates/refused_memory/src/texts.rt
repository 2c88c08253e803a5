//! The texts that the rows read, and what is written of them.

pub(crate) const LAMP: &[u8] = b"(define (domain lamp)
  (:predicates (lit) (dark))
  (:action light
    :precondition (dark)
    :effect (and (lit) (not (dark)))))
";

pub(crate) const LAMP_1: &[u8] =
    b"(define (problem lamp-1) (:domain lamp) (:init (dark)) (:goal (lit)))
";

pub(crate) const BLOCKS: &[u8] = b"(define (domain blocks)
  (:requirements :strips :typing)
  (:types block)
  (:predicates (on ?x ?y - block) (ontable ?x - block)
    (clear ?x - block) (handempty) (holding ?x - block))
  (:action pick-up :parameters (?x - block)
    :precondition (and (clear ?x) (ontable ?x) (handempty))
    :effect (and (not (ontable ?x)) (not (clear ?x))
      (not (handempty)) (holding ?x)))
  (:action stack :parameters (?x ?y - block)
    :precondition (and (holding ?x) (clear ?y))
    :effect (and (not (holding ?x)) (not (clear ?y))
      (clear ?x) (handempty) (on ?x ?y)))
  (:action pair :parameters (?x ?y - block)
    :precondition (and (holding ?x) (clear ?x) (holding ?y))
    :effect ()))
";

pub(crate) const TWO: &[u8] = b"(define (problem two) (:domain blocks)
  (:objects a b - block)
  (:init (clear a) (clear b) (ontable a) (ontable b) (handempty))
  (:goal (and (on b a))))
";

pub(crate) const CARGO: &[u8] = b"(define (domain cargo)
  (:types bigrig - lorry lorry - truck truck plane - vehicle city)
  (:predicates (parked ?v - (either truck plane)))
  (:action park :parameters (?v - (either truck plane))
    :effect (parked ?v)))
";

pub(crate) const CARGO_1: &[u8] = b"(define (problem cargo-1) (:domain cargo)
  (:objects r - bigrig v - vehicle c - city)
  (:init) (:goal (parked r)))
";

/// A plan that lights the lamp.
pub(crate) const LIGHT: &[u8] = b"(light)\n";

/// A plan that lights the lamp twice.
pub(crate) const LIGHT_TWICE: &[u8] = b"(light) (light)\n";

/// Plans for blocks: one whose action needs a block that is held, and one that picks a block up twice.
pub(crate) const PAIR: &[u8] = b"(pair a a)";

pub(crate) const PICK_UP_TWICE: &[u8] = b"(pick-up b) (pick-up b)";

/// Plans for cargo, which park a truck, a city and a vehicle.
pub(crate) const PARK_TRUCK: &[u8] = b"(park r)";

pub(crate) const PARK_CITY: &[u8] = b"(park c)";

pub(crate) const PARK_VEHICLE: &[u8] = b"(park v)";

/// The file of a planner who has both plans.
pub(crate) const BOTH: &[u8] = b"(light)\n---\n(light) (light)\n";

/// The file of a planner whose plan has an unknown action.
pub(crate) const FLY: &[u8] = b"(fly)\n";

/// The report on planners `p`, `q` and `r` with the files `LIGHT`, `BOTH` and `FLY`.
pub(crate) const REPORT: &[u8] = b"domain lamp problem lamp-1
p 1 valid 1
p plans 1 valid 1 best 1
q 1 valid 1
q 2 fails at 2 (light): missing (dark)
q plans 2 valid 1 best 1
r 1 fails at 1 (fly): unknown action
r plans 1 valid 0 best -
";

/// Twelve steps for a desk.
pub(crate) const STEPS: &[u8] = b"desk 1 2
submit 0 (light)
submit 0 (light) (light)
take
take
finish 1 1
emit 0
finish 0 0
emit 0
emit 0
take
close 0
emit 0
";

/// The lines of the replies to them.
pub(crate) const REPLIES: &[u8] = b"accepted 0
accepted 1
took 0
took 1
finished
refused NotReady 0
finished
emitted 0 valid 1
emitted 1 fails at 2 (light): missing (dark)
none
closed
refused Complete
";
