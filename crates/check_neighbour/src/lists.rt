// The layers of switches of a network of n places in the neighbour wiring, in the sequence of their bits, listed with a stack of tasks
// and no recursion. Sums wrap here and in the other files: no number comes near a bound, and so nothing has to be proved of it.
use check_cases::up;
use std::alloc::{AllocError, Global};

// A network: its first place, how many places, how far they lie apart; the positions of its first input bit and of its first output bit.
#[derive(Clone, Copy)]
pub(crate) struct Net {
    pub start: u16,
    pub size: u16,
    pub apart: u16,
    pub first: u16,
    pub last: u16,
}

impl Net {
    pub(crate) fn pairs(self) -> u16 {
        up(self.size)
    }

    // Where place i of the network lies.
    pub(crate) fn place(self, i: u16) -> u16 {
        self.start.wrapping_add(self.apart.wrapping_mul(i))
    }
}

#[derive(Clone, Copy, PartialEq, Eq)]
pub(crate) enum Kind {
    Inputs,
    Outputs,
}

// The input switches or the output switches of a network.
#[derive(Clone, Copy)]
pub(crate) struct Layer {
    pub kind: Kind,
    pub net: Net,
}

impl Layer {
    // How many switches it has, and the position of the first one's bit.
    pub(crate) fn count(self) -> u16 {
        match self.kind {
            Kind::Inputs => self.net.pairs().saturating_sub(1),
            Kind::Outputs => self.net.size / 2,
        }
    }

    pub(crate) fn bit(self) -> u16 {
        match self.kind {
            Kind::Inputs => self.net.first,
            Kind::Outputs => self.net.last,
        }
    }
}

// All layers of n places, and how many switches they have.
#[derive(Drop)]
pub(crate) struct Layers {
    pub places: u16,
    pub switches: u16,
    pub all: Vec<Layer>,
}

// What is to be listed: a network, or the output switches of the one whose input switches are a layer.
#[derive(Clone, Copy)]
enum Task {
    Network { start: u16, size: u16, apart: u16 },
    Outputs { inputs: usize },
}

impl Layers {
    fn push(&mut self, kind: Kind, net: Net) -> Result<(), AllocError> {
        let layer = Layer { kind, net };
        self.all.push(layer)?;
        self.switches = self.switches.wrapping_add(layer.count());
        Ok(())
    }

    // A network's input switches; its output switches wait, above them its bottom half, above that the top half. The halves have every
    // second place. The input switches are told where the output switches are.
    fn list(&mut self, task: Task, tasks: &mut Vec<Task>) -> Result<(), AllocError> {
        match task {
            Task::Network { start, size, apart } if 1 < size => {
                let inputs = self.all.len();
                let first = self.switches;
                let net = Net {
                    start,
                    size,
                    apart,
                    first,
                    last: 0,
                };
                self.push(Kind::Inputs, net)?;
                tasks.push(Task::Outputs { inputs })?;
                let apart = apart.wrapping_mul(2);
                tasks.push(Task::Network {
                    start: net.place(1),
                    size: size / 2,
                    apart,
                })?;
                tasks.push(Task::Network {
                    start,
                    size: up(size),
                    apart,
                })?;
            }
            Task::Network { .. } => {}
            Task::Outputs { inputs } => {
                if let Some(layer) = self.all.get_mut(inputs) {
                    layer.net.last = self.switches;
                    let net = layer.net;
                    self.push(Kind::Outputs, net)?;
                }
            }
        }
        Ok(())
    }
}

// A network of 1,024 places makes 3,070 tasks.
pub(crate) fn list(alloc: Global, n: u16) -> Result<Layers, AllocError> {
    let mut layers = Layers {
        places: n,
        switches: 0,
        all: Vec::new(alloc),
    };
    let mut tasks = vec![in alloc;
        Task::Network {
            start: 0,
            size: n,
            apart: 1
        },
    ]?;
    for _ in 0..4096 {
        let Some(task) = tasks.pop() else {
            break;
        };
        layers.list(task, &mut tasks)?;
    }
    Ok(layers)
}
