//! The sample monitor.

/// A monitor as an assembly text: the root partition shares one processor out to two children. It is
/// `examples/monitor.s`.
pub const MONITOR: &str =
    "# A monitor: the root partition shares one processor out to two children, in turns.
#
#     ./pip asm < examples/monitor.s > monitor.img
#     ./pip run 100000 1 < monitor.img
#
# The machine has 256 frames and one processor. Interrupt line 0 is a timer: it is raised at step 500, and then every
# 40 steps. It reaches the root as vector 32, for which the root has a handler below.
.frames 256
.cpus 1
.line 0 500 40

# ---- The root's program. The machine begins here, with all registers 0.
#
# r10 is never written, so that it is 0: at the start, and at each entry of the handler, whose block has 0 for it.
# A call has its arguments in r1 to r5, and its reply in r0 and r1: a status, 0 where it was done, and a value.
.page 0x400000
start:
# vcli: no line is taken before a child runs. Nor is one before this: vector 32 has no handler yet.
sys 10
bne r0 r10 refused
# r6 is the page of the child's descriptor for `make_child`.
li r6 <first_child
lih r6 >first_child
ldw r6 r6 0
jal r14 make_child
li r6 <second_child
lih r6 >second_child
ldw r6 r6 0
jal r14 make_child
# Vector 32 gets its handler last. A line that came before stays pending, whenever it came, and is taken as soon as a
# child runs. The entry, at 0xfffff080, is the address of the block, 0xfffff400.
li r7 0xf400
lih r7 0xffff
stw r7 r7 -896
# The handler begins the first child: its turn is the first. A child is interrupted also while the root is masked.
li r15 <turn
lih r15 >turn

# ---- The handler of vector 32: r15 is the address of `turn`, from the handler's block.
#
# The child that was interrupted is saved in its own block for the vector 63, and the root is masked from here until it
# yields to a child, so that no line comes in between. Let r7 be the child whose turn it is, and note the one after it.
next_turn:
ldw r7 r15 0
ldw r8 r7 4
stw r8 r15 0
# yield(child, vector 63, nothing is saved): the child goes on with the registers and the pc in its block for 63. At
# first that is the context with which it begins, later the one with which it was interrupted.
ldw r1 r7 0
li r2 63
li r3 256
sys 8
# A yield that was done does not come back here.
beq r10 r10 refused

# ---- A call was refused: its status is shown, and the root stays here.
refused:
out r0
stopped:
beq r10 r10 stopped

# ---- make_child: r6 is the first of thirteen pages of the root, one after another, and r14 where to go on.
#
#     r6           the descriptor, the MMU directory, two shadow directories and the first list page
#     r6 + 0x5000  three pages for the tables of the child's directory index 64, addresses from 0x10000000 on
#     r6 + 0x8000  three pages for those of the index 1023, addresses from 0xffc00000 on
#     r6 + 0xb000  the child's handler table, and the block in which it is saved
#     r6 + 0xc000  its program
make_child:
# createPartition of five pages. From now on they belong to the kernel, and the root can't reach them.
mov r1 r6
addi r2 r1 4096
addi r3 r2 4096
addi r4 r3 4096
addi r5 r4 4096
sys 0
bne r0 r10 refused
# Tables for both directory indexes.
addi r7 r6 0x5000
li r2 0
lih r2 0x1000
jal r13 make_tables
li r2 0xf000
lih r2 0xffff
jal r13 make_tables
# addVAddr(page, child, address in the child, rights): r7 has come to the handler table, which the child may read and
# write, so that it can be saved there ..
mov r1 r7
mov r2 r6
li r3 0xf000
lih r3 0xffff
li r4 3
sys 5
bne r0 r10 refused
# .. and its program, which it may read and execute. The root keeps both pages too.
addi r1 r7 4096
mov r2 r6
li r3 0
lih r3 0x1000
li r4 5
sys 5
bne r0 r10 refused
jr r14

# ---- make_tables: tables of the child r6 for the directory index of the address r2, from three pages at r7 on.
# r7 continues after them, and r13 is where to go on.
make_tables:
# prepare(child, address, first page) takes a chain: the first word of each page is the address of the next one.
addi r8 r7 4096
addi r9 r8 4096
stw r8 r7 0
stw r9 r8 0
mov r1 r6
mov r3 r7
sys 3
bne r0 r10 refused
addi r7 r9 4096
jr r13

# ---- The root's data. The child whose turn is next:
.page 0x401000
turn:
.word first_child
# A child: its descriptor, and the child after it.
first_child:
.word 0x410000
.word second_child
second_child:
.word 0x420000
.word first_child

# ---- The first child. Entry k of a handler table is the address of a block of 17 words: a pc, and the registers r0 to
# r15. That for the vector 63 begins at word 256 of the child's handler page: the child begins at 0x10000000, where it
# has its program, and counts from 0.
.page 0x41b000
.zero 63
.word 0xfffff400
.zero 192
.word 0x10000000
.word 0
.word 0
# It counts on from the number in r1, and shows every sixteenth one. Addresses of branches are distances, so the
# program runs at any address.
.page 0x41c000
first_round:
addi r1 r1 1
andi r2 r1 15
bne r2 r10 first_round
out r1
beq r10 r10 first_round

# ---- The second child, which counts from 0x20000000.
.page 0x42b000
.zero 63
.word 0xfffff400
.zero 192
.word 0x10000000
.word 0
.word 0x20000000
.page 0x42c000
second_round:
addi r1 r1 1
andi r2 r1 15
bne r2 r10 second_round
out r1
beq r10 r10 second_round

# ---- The root's handler table, its last page. The block for vector 32 begins at word 256: vector 32 is handled at
# `next_turn`, with the address of `turn` in r15. Its entry, word 32, is 0 until the children are made.
.page 0xfffff000
.zero 256
.word next_turn
.zero 15
.word turn
";
